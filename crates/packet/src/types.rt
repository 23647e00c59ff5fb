// The types of the packets that a link itself reads and writes. The other types are those of messages.
// Kept: numbers, as every `u32` may come or be sent as a type, and the C interface hands it on; an enum would need a
// variant for all the others.

pub const NONCE: u32 = 0x7acb87aa;

pub const HANDSHAKE: u32 = 0x7682eef5;

pub const PING: u32 = 0x5730a2df;

pub const PONG: u32 = 0x8430eaa7;
