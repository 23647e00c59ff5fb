// RPC messages through a link: one message as one packet, by value.
//
// The body goes straight into the lent buffer from byte 12 on, header and checksum around it; no byte is stored before
// the size is known to fit, and a refusal leaves link and buffer as they were. Nothing here sends a Nonce, Handshake,
// Ping or Pong: those are in the crates `nonce_out`, `handshake_out` and `keep_alive_out`. The type that matters is
// `Outgoing`.
#![tactic(auto)]

mod early;
mod place;
mod step;
mod write;

pub use step::message_step;

// A message to send; the payload of an invoke or result, or the text of an error, goes beside it.
#[derive(Clone, Copy)]
pub enum Outgoing {
    // the timeout in ms
    Invoke {
        number: i64,
        actor: Option<i64>,
        timeout: Option<u32>,
        tl2: bool,
    },
    Cancel(i64),
    ClientFin,
    // a result with a payload
    Payload(i64),
    // a result with an error
    Error {
        number: i64,
        code: i32,
    },
    ServerFin,
    // a type that we never write
    Unknown(u32),
}
