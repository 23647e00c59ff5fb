// MD5 (RFC 1321).
//
// `md5` takes a slice of any length and gives the 16 bytes of its digest. How a message is cut into blocks is known to
// the crate `hash_blocks`; the type that it is given is `Md5`, and `State` goes from block to block. The definition is
// in specs/Md5.antt.
#![tactic(auto)]

mod steps;
mod tables;
mod whole;

pub use whole::md5;

// The four words that go from block to block.
#[derive(Clone, Copy)]
pub struct State {
    pub a: u32,
    pub b: u32,
    pub c: u32,
    pub d: u32,
}
