// The link after a packet and after a refusal, and what is refused of the other side's Ping and Pong.
//
// A link is taken by value and handed back; a body is lent as a slice, and every read is total. Nothing here looks at
// whose turn it is or at a packet's front: the crate `link` does, and calls `check_ping` and `check_pong`, then
// `after` on a packet that passed, or `refused`.
#![tactic(auto)]

mod keep_alive;
mod next;

pub use keep_alive::{check_ping, check_pong};
pub use next::{after, refused};
