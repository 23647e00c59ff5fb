// The times of the table of requests in flight: the latest time seen, and each request's deadline (document 02, A2).
// It never reads a clock: a call brings the present time, in ms, and the array `times` of crate `inflight` keeps what
// was seen. `no_time` and `latest` judge a call's time, `set_deadline` is what an accepted ask leaves. Each is total,
// on any contents of the array; crate `inflight_slots` has `find_due`, which looks for the deadlines that have come.
#![tactic(auto)]

mod times;

pub use times::{latest, no_time, set_deadline};
