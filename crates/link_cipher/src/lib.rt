// Whether a link is ciphered: what it offers or answers, which Nonce of the other side it refuses, and what is chosen.
//
// A link is set to clear only, cipher only or either (`Settings`, of the crate `link_state`). Nothing here changes a
// link, derives a key or ciphers a byte. The calls that matter are `chosen` and `refused`, on the other side's Nonce.
#![tactic(auto)]

mod reading;
mod writing;

pub use reading::{chosen, refused};
pub use writing::{encryption, key_id, offers_or_takes};
