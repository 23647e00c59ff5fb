// SHA-1 (FIPS 180-4).
//
// `sha1` takes a slice of any length and gives the 20 bytes of its digest. How a message is cut into blocks is known to
// the crate `hash_blocks`; the type that it is given is `Sha1`, and `State` goes from block to block. The definition is
// in specs/Sha1.antt. The standard defines SHA-1 below 2^64 bits; from there on the length is taken modulo 2^64, as
// RFC 1321 has it for MD5.
#![tactic(auto)]

mod schedule;
mod steps;
mod turns;
mod whole;

pub use whole::sha1;

// The five words that go from block to block.
#[derive(Clone, Copy)]
pub struct State {
    pub a: u32,
    pub b: u32,
    pub c: u32,
    pub d: u32,
    pub e: u32,
}
