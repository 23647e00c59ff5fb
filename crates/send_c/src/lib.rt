// The C interface of a link's send: one exported function, which wraps one call of the library and has its contract.
//
// What to send passes as one struct for all packet types, the answer as a refusal and a size; the payload or text is
// lent beside them. Nothing here decides anything but which packet a type is: what a call answers is said by the crate
// `send`. The types that matter are `RelayOutgoing` and the `Link` of crate link_state, which the caller keeps and
// lends.
#![tactic(auto)]

mod outgoing;
mod sending;

use handshake_in::NetPid;
pub use sending::relay_send;

// What to send. kind is the packet's type. A Nonce has random and point; a Handshake sender and peer; a Ping id; an
// invoke number, tl2, actor if hasactor, timeout in ms if hastimeout; a cancel number; a result number, and code if
// error says that it is an error and not a payload. Fields that the type does not use are ignored; a type that is never
// sent is refused.
// Kept: numbers and flags in place of a `Result` or an `Option`, since the C interface has these fields.
#[repr(C)]
#[derive(Clone, Copy)]
pub struct RelayOutgoing {
    pub kind: u32,
    pub error: bool,
    pub hasactor: bool,
    pub hastimeout: bool,
    pub tl2: bool,
    pub timeout: u32,
    pub code: i32,
    pub number: i64,
    pub actor: i64,
    pub id: u64,
    pub random: [u8; 16],
    pub sender: NetPid,
    pub peer: NetPid,
    pub point: [u8; 32],
}

// How many bytes the packet takes at the front of the buffer; or, where refusal is not 0, the refusal's number, and
// then the size is 0 and no byte was written.
// Kept: numbers and flags in place of a `Result` or an `Option`, since the C interface has these fields.
#[repr(C)]
#[derive(Clone, Copy)]
pub struct RelaySent {
    pub refusal: u8,
    pub size: usize,
}
