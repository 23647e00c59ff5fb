// The call for a gone peer, a front link that closed or a publisher that was lost: all its requests are freed, and
// their other ends go into a lent slice, oldest first. It never opens a socket, reads a clock or allocates: the table
// of crate `inflight` is lent, and changes where it stands. `gone` is the one call, total on any contents
// and every slice; crate `inflight_drop` frees the slots.
#![tactic(auto)]

mod leaving;

pub use leaving::gone;
