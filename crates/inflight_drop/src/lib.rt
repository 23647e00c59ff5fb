// Many requests freed at once: those in the slots of a mask. Their other ends go into a lent slice, oldest first. It
// never opens a socket, reads a clock or allocates: the table of crate `inflight` is lent, and changes where
// it stands. `drop_slots` is the one call, total on any mask, any contents and every slice; `gone` (crate
// `inflight_gone`) and `run_out` (crate `inflight_run_out`) say which slots.
#![tactic(auto)]

mod dropping;
mod ends;

pub use dropping::drop_slots;
