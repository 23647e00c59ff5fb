// The table of requests in flight for C: the calls that take one request, reply and cancel. Each exported function
// wraps one call of the crate `inflight_take` and has its contract; the other calls are in the crates `ask_c` and
// `drops_c`.
//
// The caller keeps the table and lends it: a call updates it where it stands, copies none of it, allocates nothing and
// decides nothing; those that end in `_lent` are lent its members each by itself, and copy them. include/relay.h has
// the struct, and a call for each of these. An answer is a struct of numbers: `refusal` is the refusal's number, or 0,
// and the other fields of a refusal are 0.
#![tactic(auto)]

mod apart;
mod calls;

pub use apart::{relay_cancel_lent, relay_reply_lent};
pub use calls::{relay_table_cancel, relay_table_reply};
use inflight::{FrontNumber, PublisherNumber};

// A reply that goes to a link and its front number.
// Kept: numbers and flags in place of a `Result` or an `Option`, since the C interface has these fields.
#[repr(C)]
#[derive(Clone, Copy)]
pub struct RelayReplied {
    pub refusal: u8,
    pub link: u8,
    pub number: FrontNumber,
}

// A cancel that goes to a publisher and its number.
// Kept: numbers and flags in place of a `Result` or an `Option`, since the C interface has these fields.
#[repr(C)]
#[derive(Clone, Copy)]
pub struct RelayCancelled {
    pub refusal: u8,
    pub publisher: u8,
    pub number: PublisherNumber,
}
