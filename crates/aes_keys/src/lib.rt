// The round keys of AES-256 (FIPS 197, 5.2): `round_keys`, made once for a key.
//
// Words are made one after the other, each from the word before it and the one eight words back, in the array that is
// returned. Substitutes come from crate `aes_key_sub`, by one look-up in a loop of four. No key is refused: any 32
// bytes are a key. The definition is `keys` of crate aes.
#![tactic(auto)]

mod expansion;
mod substitution;

pub use expansion::round_keys;
