// AES-256 in CBC mode, deciphering (FIPS 197): `decipher`, over a lent buffer of whole blocks.
//
// It is the equivalent inverse cipher of 5.3.5. Its round keys come from the crate `aes_back_keys` and go by value,
// as the vector does; any 240 bytes are such keys, and the answer is what the definition gives for them. With the
// keys made from those of enciphering it is the inverse cipher (`back_is` of crate cipher_laws). The loops are those of
// the crate `aes_loops`, with the look-ups of `aes_back_columns` and, in the last round, of `aes_unsub`.
#![tactic(auto)]

mod chain;
mod direction;

pub use chain::decipher;
