// What stands before a packet's body: which length, number and type are refused, and on a padded link the words in
// front.
//
// `check_length` and `check_head` refuse or let pass; `words::words` counts the words. Nothing here waits for bytes,
// reads a body or changes a link. How they make one answer, with the checksum and the zeros behind it, is in the crate
// `packet_in`.
#![tactic(auto)]

mod head;
pub mod words;

pub use head::{check_head, check_length};
