// Writing a packet: its size, and the header and checksum around a body that stands in the buffer from byte 12 on, with
// the zeros that follow it on a padded link.
//
// One writer, `seal`, closes every packet, whatever its body; a new packet costs its body's writer only. Nothing is
// stored where the packet does not fit, and bytes past the packet stay. Which packet a link may send is the crate
// `send_rules`.
#![tactic(auto)]

mod sealing;
mod size;

pub use sealing::seal;
pub use size::{size_or_refusal, usable};
