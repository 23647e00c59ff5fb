// The message types: a packet's type is its message's type.
// Kept: numbers: a packet may come with any, and reading refuses each that is none of these (19), as its contract says.

// Client to server.
pub const INVOKE: u32 = 0x2374df3d;

pub const CANCEL: u32 = 0x193f1b22;

pub const CLIENT_FIN: u32 = 0x0b73429e;

// Server to client. The old error is read and never written.
pub const RESULT: u32 = 0x63aeda4e;

pub const OLD_ERROR: u32 = 0x7ae432f5;

pub const SERVER_FIN: u32 = 0xa8ddbc46;
