// The table of crate `inflight`, from a fresh one on: masks and order are tied, so that it reads as the model, and
// every call answers, writes its slice and leaves the table as the model does. No code.
#![tactic(auto)]
