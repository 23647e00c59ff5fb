// The search for a request by its link and front number, among the slots of the table of requests in flight (crate
// `inflight`): whether a front link has a number in flight, and in which slot. It never opens a socket, reads a clock
// or allocates, and changes nothing that is lent. `find_front` is the one call. It is total, on any mask and any
// contents of the arrays.
#![tactic(auto)]

mod search;

pub use search::find_front;
