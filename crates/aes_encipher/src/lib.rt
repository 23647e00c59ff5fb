// AES-256 in CBC mode, enciphering (FIPS 197): `encipher`, over a lent buffer of whole blocks.
//
// The round keys come from the crate `aes_keys` and go by value, as the vector does; any 240 bytes are round keys,
// and the answer is what the definition gives for them. The loops are those of the crate `aes_loops`, with the
// look-ups of `aes_columns` and, in the last round, of `aes_sub`.
#![tactic(auto)]

#[cfg(test)]
mod below;
mod chain;
mod direction;

pub use chain::encipher;
