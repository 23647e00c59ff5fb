// The C interface of a link, but for receiving and sending: each exported function wraps one call of the library and
// has its contract.
//
// An enum passes as a struct of numbers and flags, a part of the caller's bytes as a place and a length. Nothing here
// decides anything: what a call answers is said by the crate that it wraps. The types that matter are `RelaySetUp` and
// the `Link` of crate link_state, which the caller keeps and lends. Receiving is in the crate `receive_c`.
#![tactic(auto)]

mod pids;
mod place;
mod start;
mod times;

use link_state::Link;
pub use pids::relay_read_netpids;
pub use place::relay_body;
pub use start::{relay_set_up, relay_set_up_with_key};
pub use times::relay_clock_difference;

// A link that was set up. refusal is the refusal's number, or 0: then the link is ready.
// Kept: numbers and flags in place of a `Result` or an `Option`, since the C interface has these fields.
#[repr(C)]
#[derive(Clone, Copy)]
pub struct RelaySetUp {
    pub refusal: u8,
    pub link: Link,
}

// A part of the bytes: the len bytes from byte at on.
// Kept: a place and a length, since the C interface has these fields.
#[repr(C)]
#[derive(Clone, Copy)]
pub struct RelayPart {
    pub at: usize,
    pub len: usize,
}

// Their time minus ours, where the clocks are near; else 0.
// Kept: numbers and flags in place of a `Result` or an `Option`, since the C interface has these fields.
#[repr(C)]
#[derive(Clone, Copy)]
pub struct RelayClock {
    pub near: bool,
    pub difference: i64,
}
