// Slots by masks: bit i of a mask stands for slot i of the table of requests in flight (crate `inflight`).
// It never opens a socket, reads a clock or allocates, and of what is lent it changes the line of `lay_out` alone.
// `count`, `bit`, `holds` and `lowest_free` read a mask; `find_number`, `find_link` and `find_due` look for requests
// among a mask's slots, as `find_front` of crate `inflight_fronts` does; `lay_out` puts them in the order of
// acceptance. Each is total, on any mask and any contents of the arrays.
#![tactic(auto)]

mod bits;
mod line;
mod search;

pub use bits::{bit, count, holds, lowest_free};
pub use line::lay_out;
pub use search::{find_due, find_link, find_number};
