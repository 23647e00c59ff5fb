// The cipher's loops (FIPS 197): a block through its rounds, and the blocks of a buffer, forth and back.
//
// Enciphering and deciphering are one code over a `TotalDirection`: the crates aes_encipher and aes_decipher have one
// each. A round is sixteen look-ups, of which each kind is a `TotalLook`. A look-up stands once in the code, in loops
// of four, so that the compiler can make a table of constants of it and unroll the loops. The author of a `Direction`
// or a `Look` shows it for the rounds and places that there are, and `Total` makes a `TotalDirection` or a `TotalLook`
// of it. Laws of the loops are in proofs/: `sums` for the rows, `Done` and `spun` for the columns. The definitions are
// those of crate aes.
#![tactic(auto)]

mod block;
mod chain;
mod column;
mod direction;
mod total;
mod words;

pub use chain::chained;
pub use column::{Look, gathered, placed, turned};
pub use direction::Direction;
pub use total::{Total, TotalDirection, TotalLook};
pub use words::{both, load, rotated, store};
