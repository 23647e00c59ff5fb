// The padded profile, as either direction needs it: whether a link has it, how many zeros follow a packet, how many
// words may stand before the next, and the count of the words that we wrote.
//
// Nothing here reads or writes a byte or changes a link. The calls that matter are `tail` and `words_allowed`; words are
// read in the crate `packet_head`, zeros in `packet_in`, and they are written in `flush` and `packet_out`.
#![tactic(auto)]

mod padding;

pub use padding::{padded, pads, phase_after, tail, words_allowed};
