// The call that adds a request to the table: ask.
// It never opens a socket, reads a clock or allocates: the table of crate `inflight` is lent,
// and changes where it stands. `ask` is the one call, total on any contents; its rules are in crate `inflight_rules`, its
// deadline's in `inflight_times`.
#![tactic(auto)]

mod asking;

pub use asking::ask;
