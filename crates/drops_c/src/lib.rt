// The table of requests in flight for C: the calls that free many requests, those of a front link that closed or of a
// publisher that was lost, and those whose deadline has come. Each exported function wraps one call, of the crates
// `inflight_gone` and `inflight_run_out`, and has its contract; the other calls are in the crates `ask_c` and `take_c`.
//
// The caller keeps the table and lends it, and the slice for the other ends: a call updates them where they stand,
// copies none, allocates nothing and decides nothing. Those that end in `_lent` are lent the table's members each by
// itself, and copy them. `RelayDropped` is the answer.
#![tactic(auto)]

mod apart;
mod drops;

pub use apart::{relay_gone_lent, relay_run_out_lent};
pub use drops::{relay_table_gone, relay_table_run_out};

// How many requests were freed. refusal is the refusal's number, or 0; the count of a refusal is 0.
// Kept: numbers and flags in place of a `Result` or an `Option`, since the C interface has these fields.
#[repr(C)]
#[derive(Clone, Copy)]
pub struct RelayDropped {
    pub refusal: u8,
    pub count: usize,
}
