// Little-endian numbers at an offset of a lent slice, read; and the words in which every crate above states its rules.
//
// Every call is total: bytes past the end count as 0. Nothing here knows a packet or a message. The definitions `part`,
// `le` and `bytes` are in specs/Bytes.antt, the choices `pick` and `first` in specs/Choice.antt, and the laws on bytes,
// stores and signed numbers in proofs/. Crates `store`, `store_signed` and `store_bytes` write.
#![tactic(auto)]

mod read;
mod sign;
mod slice;

pub use read::{i32_at, i64_at, left, u8_at, u16_at, u32_at, u64_at};
pub use sign::signed64;
pub use slice::part;
