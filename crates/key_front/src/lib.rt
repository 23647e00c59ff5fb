// The front of the init message, the 54 bytes that stand before its key (document 02, A8; the protocol document, on
// enabling the cipher), and both Nonces' random bytes, which stand behind the key once more.
//
// `put_front` stores the front in a lent buffer, as much of it as fits; `randoms` hands the random bytes back. Nothing
// here has a key or shared bytes: the message whole is the crate `key_message`. The types that matter are `End` and
// `Ends`.
#![tactic(auto)]

mod parts;

pub use parts::{put_front, randoms};

// What the message has of one end: the random bytes and the time of its Nonce, and its address and port.
#[repr(C)]
#[derive(Clone, Copy)]
pub struct End {
    pub random: [u8; 16],
    pub time: u32,
    pub ip: u32,
    pub port: u16,
}

#[repr(C)]
#[derive(Clone, Copy)]
pub struct Ends {
    pub client: End,
    pub server: End,
}
