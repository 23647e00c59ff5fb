// Where the steps of the relay walk start, and whether there is a next one.
//
// Nothing here reads, walks or writes: the crate `walk_steps` does, and asks here whether the events have ended and
// whether it goes on. Each function is total, on numbers and flags. The type that matters is `Progress`, which one step
// hands to the next.
#![tactic(auto)]

mod steps;

pub use steps::{goes_on, no_more, start};

// What the next step starts from, besides the table, which is lent to it: how many event bytes wait at the buffer's
// front, whether the events have ended, and whether there is a next step.
// Kept: `ended` and `more` are flags, since `Stepped` and `Runs` (walk_steps) speak of both after the last step too.
#[derive(Clone, Copy)]
pub struct Progress {
    pub have: usize,
    pub ended: bool,
    pub more: bool,
}
