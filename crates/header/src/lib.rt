// The header values of RPC messages: which of them a 32-bit value is, at either side.
//
// Recognition is `kind_of` and nothing else; what follows a header is read by the crates `invoke_headers` and `result`. Nothing
// here reads a field or refuses anything. The types that matter are `Side`, the side that reads, and `Kind`.
#![tactic(auto)]

mod payload;
mod recognise;
mod values;

pub use payload::reads_as_header;
pub use recognise::kind_of;
pub use values::{DEST_ACTOR, DEST_ACTOR_FLAGS, DEST_FLAGS, REQ_ERROR, TL2_MARKER};

// The side that reads a message: a server reads requests, a client reads answers.
#[derive(Clone, Copy)]
pub enum Side {
    Client,
    Server,
}

// What a value is at the front of what is left of a body. Flags: an extra follows; Marker: TL2 follows.
#[derive(Clone, Copy, PartialEq, Eq)]
pub enum Kind {
    Flags,
    Actor,
    ActorFlags,
    Diagonal,
    Marker,
    ResultHeader,
    Error,
    NumberedError,
    Other,
}
