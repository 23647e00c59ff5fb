// Slots of the table of requests in flight (crate `inflight`) are freed: out of every mask, and the places of the
// others in the order of acceptance close up.
// It never opens a socket, reads a clock or allocates; what the slots held stays where it is, and no request moves.
// `free` frees one slot, for an answer or a cancel; `strike` those of a mask, for a link or a publisher that is gone
// or for requests that run out. Both are total on any contents and any line.
#![tactic(auto)]

mod freeing;

pub use freeing::{free, strike};
