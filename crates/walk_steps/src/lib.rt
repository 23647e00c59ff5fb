// The relay walk in steps: events from standard input, lines to standard output, through two buffers, on a table that
// starts at 1. A step is one read, one call of crate `walk` and one write. It is lent the table of crate `inflight`, and
// works where it stands. specs/Step.antt says what it leaves, in the words of crate
// `walk_claims`; what the world decides (which bytes were read, whether the text was written) is open there.
// specs/Runs.antt is a theorem over any number of steps: once all is read and written, the text is the model's.
// Where the steps start, and whether there is a next one, is in the crate `walk_progress`.
#![tactic(auto)]

mod moves;
mod steps;

pub use steps::{run, step};
