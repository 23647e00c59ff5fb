// The invoke message: what a body means, and when two timeouts are one.
//
// The reader is the crate `invoke_in`, the writer `invoke_out`; both take a timeout by `effective_timeout`, so that
// what the one leaves out the other does not report. Nothing here reads or writes a byte. The type that matters is
// `Invoke`.
#![tactic(auto)]

mod effective;

pub use effective::effective_timeout;

// Bit 23 of an extra's mask: a timeout follows.
pub const TIMEOUT_BIT: u32 = 0x80_0000;

// What an invoke means. Its timeout is in milliseconds, and 0 is none: no reader reports it, and a writer that is given
// it writes no field. Its payload (document 01: the rest) is the len bytes of the body from byte at on.
// Kept: at and len side by side, here and in `result` and `text`: a struct of the two would be taken apart again by each
// that uses it, since C's structs have the two as fields, and `wire::part` takes the two.
#[derive(Clone, Copy)]
pub struct Invoke {
    pub number: i64,
    pub actor: Option<i64>,
    pub timeout: Option<u32>,
    pub tl2: bool,
    pub at: usize,
    pub len: usize,
}
