// The message reader for C: one exported function, which wraps `message::read_message` and has its contract.
//
// The body passes as a pointer and a length, and the message as a struct of numbers and flags. Nothing here decides
// anything: what a body says is told by the crate `message`. include/relay.h declares the function for C, bindings/rust
// for Rust. The type that matters is `RelayMessage`.
#![tactic(auto)]

mod messages;

pub use messages::relay_read_message;

// A message that was read. kind: 0 refused, 1 invoke, 2 cancel, 3 client fin, 4 result with a payload, 5 result with an
// error, 6 server fin. refusal is the refusal's number. hasactor and hastimeout: an invoke gives an actor, a timeout in
// ms. The payload or text is the len bytes of the body from byte at on. A field that the kind does not have is 0.
// Kept: a number for the kind and for the refusal, and flags beside their values: the C interface (include/relay.h).
#[repr(C)]
#[derive(Clone, Copy)]
pub struct RelayMessage {
    pub kind: u8,
    pub refusal: u8,
    pub hasactor: bool,
    pub hastimeout: bool,
    pub tl2: bool,
    pub number: i64,
    pub actor: i64,
    pub timeout: u32,
    pub code: i32,
    pub at: usize,
    pub len: usize,
}
