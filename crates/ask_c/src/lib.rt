// The table of requests in flight for C: a fresh table, and ask. Each exported function wraps one call, of the crates
// `inflight` and `inflight_ask`, and has its contract; the other calls are in the crates `take_c` and `drops_c`.
//
// The caller keeps the table and lends it: a call updates it where it stands, copies none of it, allocates nothing and
// decides nothing; those that end in `_lent` are lent its members each by itself, and copy them. include/relay.h has
// the struct, and a call for each of these. An answer is a struct of numbers: `refusal` is the refusal's number, or 0,
// and the other fields of a refusal are 0.
#![tactic(auto)]

mod apart;
mod calls;

pub use apart::{relay_ask_lent, relay_fresh_lent};
pub use calls::{relay_table_ask, relay_table_fresh};
use inflight::PublisherNumber;

// An ask accepted with a publisher number.
// Kept: numbers and flags in place of a `Result` or an `Option`, since the C interface has these fields.
#[repr(C)]
#[derive(Clone, Copy)]
pub struct RelayAsked {
    pub refusal: u8,
    pub number: PublisherNumber,
}
