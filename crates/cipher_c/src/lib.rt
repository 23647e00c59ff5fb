// The C interface of the cipher: each exported function wraps one call of the library and has its contract.
//
// Keys, round keys and vectors pass as arrays in structs, by value; a buffer is lent. Round keys are made once for a
// direction, and every 240 bytes are round keys. Nothing here decides anything: what a call answers is said by the
// crate that it wraps. The type that matters is `RelayChained`.
#![tactic(auto)]

mod chains;
mod schedules;

pub use chains::{relay_decipher, relay_encipher};
pub use schedules::{relay_decipher_keys, relay_encipher_keys};

#[repr(C)]
#[derive(Clone, Copy)]
pub struct RelayCipherKey {
    pub bytes: [u8; 32],
}

#[repr(C)]
#[derive(Clone, Copy)]
pub struct RelayRoundKeys {
    pub bytes: [u8; 240],
}

#[repr(C)]
#[derive(Clone, Copy)]
pub struct RelayVector {
    pub bytes: [u8; 16],
}

// The vector for the next call; where refusal is not 0, it is the refusal's number, and buffer and vector stay.
// Kept: numbers and flags in place of a `Result` or an `Option`, since the C interface has these fields.
#[repr(C)]
#[derive(Clone, Copy)]
pub struct RelayChained {
    pub refusal: u8,
    pub vector: RelayVector,
}
