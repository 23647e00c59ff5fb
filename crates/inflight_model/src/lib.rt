// What holds of the model of crate `inflight`, document 01's book, at every point of a list of calls: the capacity rule
// keeps its bounds, no number is in flight twice, and times seen are in range. No code.
#![tactic(auto)]
