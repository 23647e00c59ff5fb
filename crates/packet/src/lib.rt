// Packets, as either direction needs them: which types may go over a link now, the checksum in use, and the answer of a
// receive with the body that it names.
//
// Nothing here reads a body or changes a link, and no byte is copied: an answer names the body by its place, and
// `body` hands it back. The type that matters is `Arrival`. Reading packets is in the crate `packet_in`, writing in
// `packet_out`, the padded profile in `packet_padding`.
#![tactic(auto)]

mod allow;
mod slice;
mod sum;
mod types;

pub use allow::allowed;
pub use slice::body;
pub use sum::checksum_of;
pub use types::{HANDSHAKE, NONCE, PING, PONG};

// What stands at the front of the bytes.
#[derive(Clone, Copy)]
pub enum Arrival {
    // so many bytes more are needed
    Incomplete(usize),
    // a packet of this type, which takes so many bytes; its body is the len bytes from at on
    Packet {
        kind: u32,
        consumed: usize,
        at: usize,
        len: usize,
    },
}
