// Receiving, in the C interface: `relay_receive` wraps `link::receive` and has its contract. The
// crate `receive_export` exports it, since `link_c` stands on this one.
//
// The other calls of a link are in `link_c`. The answer passes as a struct of numbers, the body of a packet as a place
// and a length. Nothing here decides anything: what a call answers is said by the crate `link`. The types that matter
// are `RelayArrival` and the `Link` of crate link_state, which the caller keeps and lends.
#![tactic(auto)]

mod arrivals;

pub use arrivals::relay_receive;

// What stands at the front of the bytes. tag: 0 refused, 1 incomplete, 2 packet. refusal is the refusal's number;
// more is how many bytes more are needed; a packet has its type, the bytes it takes, and its body, the len bytes from
// byte at on. A field that the tag does not have is 0.
// Kept: numbers and flags in place of a `Result` or an `Option`, since the C interface has these fields.
#[repr(C)]
#[derive(Clone, Copy)]
pub struct RelayArrival {
    pub tag: u8,
    pub refusal: u8,
    pub kind: u32,
    pub more: usize,
    pub consumed: usize,
    pub at: usize,
    pub len: usize,
}
