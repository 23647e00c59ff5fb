// The C interface of a link's keys: each exported function wraps one call of the library and has its contract.
//
// Digests, keys and vectors pass as arrays in structs, a part of the caller's bytes as a place and a length. Nothing
// here decides anything: what a call answers is said by the crate that it wraps. The type that matters is
// `RelayDerived`; what a derivation takes is the library's `Derivation`, with its fields in C's order.
#![tactic(auto)]

mod clearing;
mod derivation;
mod digests;
mod nonces;

pub use clearing::relay_clear;
pub use derivation::relay_derive;
pub use digests::{relay_md5, relay_sha1};
use nonce_in::Place;
pub use nonces::relay_read_nonce;

#[repr(C)]
#[derive(Clone, Copy)]
pub struct RelayMd5 {
    pub bytes: [u8; 16],
}

#[repr(C)]
#[derive(Clone, Copy)]
pub struct RelaySha1 {
    pub bytes: [u8; 20],
}

// The fields of a Nonce; or, where refusal is not 0, the refusal's number, and then all else is 0.
// Kept: numbers and flags in place of a `Result` or an `Option`, since the C interface has these fields.
#[repr(C)]
#[derive(Clone, Copy)]
pub struct RelayNonceFields {
    pub refusal: u8,
    pub version: u8,
    pub time: u32,
    pub random: Place,
    pub point: Place,
}

// How many bytes the init message takes at the front of the buffer, with key and vector; or, where refusal is not 0,
// the refusal's number, and then all else is 0 and no byte was written.
// Kept: numbers and flags in place of a `Result` or an `Option`, since the C interface has these fields.
#[repr(C)]
#[derive(Clone, Copy)]
pub struct RelayDerived {
    pub refusal: u8,
    pub size: usize,
    pub key: [u8; 32],
    pub vector: [u8; 16],
}
