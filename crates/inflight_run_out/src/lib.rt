// The call that ends requests whose deadline has come (document 02, A2): they are freed, and their links and front
// numbers go into a lent slice, oldest accepted first. It never opens a socket, reads a clock or allocates: the caller
// brings the present time, and lends the table of crate `inflight`, which changes where it stands.
// `run_out` is the one call, total on any contents, every time and every slice; crate `inflight_times` judges the time,
// crate `inflight_drop` frees the slots.
#![tactic(auto)]

mod ending;

pub use ending::run_out;
