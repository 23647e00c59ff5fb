// What the derivation of keys needs of a Nonce: its version, its time, its random bytes and its DH point.
//
// `nonce_fields` reads them from a Nonce's body, the other side's that a receive call named or our own that a send
// call wrote. Random bytes and point are handed back as places in the body; `wire::part` gives the bytes there.
// Nothing but the length is judged here: a Nonce is judged by the crate `opening`. The type that matters is `NonceFields`.
#![tactic(auto)]

mod read;

pub use read::nonce_fields;

// A part of the body: the len bytes from byte at on.
#[repr(C)]
#[derive(Clone, Copy)]
pub struct Place {
    pub at: usize,
    pub len: usize,
}

#[repr(C)]
#[derive(Clone, Copy)]
pub struct NonceFields {
    pub version: u8,
    pub time: u32,
    pub random: Place,
    // no bytes below version 2
    pub point: Place,
}
