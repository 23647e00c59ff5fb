// The other side's Nonce: whether it is refused, and how far its clock is from ours.
//
// The body is lent as a slice; every read is total. Nothing here changes a link or knows whose turn it is: that is the
// crate `link`. The other side's Handshake is read in `handshake_in`. The call that matters to a caller is
// `clock_difference`, on the body of a Nonce: none where the clocks are too far apart.
#![tactic(auto)]

mod nonce;
mod times;

pub use nonce::{check_nonce, least};
pub use times::clock_difference;
