// The init message, from which both ends of a link work out the keys of either direction (document 02, A8; the
// protocol document, on enabling the cipher).
//
// `write_message` writes it at the front of a lent buffer and hands back its size, or a refusal: then no byte was
// written. Nothing here hashes; that is the crate `link_keys`. The type that matters is `Derivation`; what the message
// has of either end, and what stands before the key, is the crate `key_front`. The message holds the key and, in
// version 2, the shared bytes: whoever lent the buffer clears it after use (`store_bytes::clear`).
#![tactic(auto)]

mod whole;

use key_front::Ends;
pub use whole::write_message;

// Which keys: of what version, for what the server sends or the client, from what both Nonces and the connection say,
// and with the 32 bytes that the ends share by Diffie-Hellman, which version 2 uses.
// Kept: the direction is a bool, since the C interface has one in this struct.
#[repr(C)]
#[derive(Clone, Copy)]
pub struct Derivation {
    pub version: u8,
    pub server: bool,
    pub ends: Ends,
    pub shared: [u8; 32],
}
