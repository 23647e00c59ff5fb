// The keys of a link: the AES key and the starting vector of one direction, by MD5 and SHA-1 over the init message
// (document 02, A8; the protocol document, on enabling the cipher).
//
// `derive` writes the message into a lent buffer and works out both, or refuses; `aes_key` and `start_vector` take a
// message that stands already. Nothing here knows a cipher. The type that matters is `Derived`.
#![tactic(auto)]

mod hashes;
mod whole;

pub use hashes::{aes_key, start_vector};
pub use whole::derive;

// What `derive` hands back: the message's size at the front of the lent buffer, with key and vector.
#[derive(Clone, Copy)]
pub struct Derived {
    pub size: usize,
    pub key: [u8; 32],
    pub vector: [u8; 16],
}
