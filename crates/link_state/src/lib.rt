// The state of a link between two calls: its settings, where its opening stands, and the next packet numbers.
//
// Only numbers and bools (`#[repr(C)]`), so that a caller can lend a link across the C interface. Nothing here reads a
// byte but a key's first four, or writes one. The types that matter are `Link`, which every call of the crates above
// takes, and `Moment`, which has what the caller gives with each call.
#![tactic(auto)]

mod start;
mod turn;

pub use start::{set_up, set_up_with_key};
pub use turn::{may_send, stage_after};

// The highest version that we write or, as client, accept; so a link's lowest one is at most this.
pub const OUR_VERSION: u8 = 2;

// How a link is set up; it does not change afterwards.
#[repr(C)]
#[derive(Clone, Copy)]
pub struct Settings {
    // Kept: the C interface: the header's `bool server`, and the fields below it, and no enums of sides or of ciphers
    pub server: bool,
    // whether CRC-32C is offered by a client, or granted by a server
    pub allows: bool,
    // the lowest version that the other side's Nonce may have, 0 to 2: 0 takes every version
    pub lowest: u8,
    // whether the link is padded by hand (a ciphered one is padded anyway): zeros follow each packet, and words may
    // stand between packets, from the Handshakes on
    pub padded: bool,
    // whether the cipher is offered by a client, or taken by a server; such a link is set up with a key
    pub cipher: bool,
    // of such a link: it never goes clear. A link with neither is clear only, as one with this alone is
    pub only: bool,
}

// What the caller gives with each call.
#[repr(C)]
#[derive(Clone, Copy)]
pub struct Moment {
    // our time, in seconds
    pub time: u32,
}

#[repr(C)]
#[derive(Clone, Copy)]
pub struct Link {
    pub set: Settings,
    pub closed: bool,
    // whether the Handshakes agreed on CRC-32C; it is in use from the packet after them
    pub crc32c: bool,
    // the version in the other side's Nonce
    pub version: u8,
    // how many packets of the opening went over, in either direction: 4 after it
    // Kept: the C interface: a count that C is told, and no enum of stages
    pub stage: u8,
    // on a padded link, the 32-bit words since the first byte of our Handshake, modulo 4
    pub phase: u8,
    // whether a Ping of ours is unanswered
    // Kept: the C interface, which names both flags and both IDs below: no `Option<u64>` is laid out as those are
    pub awaits: bool,
    // whether we owe a Pong
    pub owes: bool,
    // whether the Nonces chose the cipher; both directions are ciphered from their Handshakes on
    pub ciphered: bool,
    // the first four bytes of the key that the link was set up with, or 0: all that a link keeps of it
    pub keyid: u32,
    // the next packet's number, of each direction
    pub sends: u32,
    pub gets: u32,
    // the ID of our Ping that is unanswered, and of the Ping that our Pong answers
    pub awaited: u64,
    pub owed: u64,
}
