// The rules of an ask (document 01: taking a ticket): when it is refused, and which publisher number it is given.
// It never opens a socket, reads a clock or allocates, and changes nothing that is lent: `ask` (crate `inflight_ask`)
// does. `check_ask` has the refusals in their order, with `capacity_taken` for the shared room; `free_number` and
// `step` the publishers' numbering. Each is total on any contents of the table's arrays.
#![tactic(auto)]

mod capacity;
mod numbering;
mod refusing;

pub use capacity::capacity_taken;
pub use numbering::{free_number, step};
pub use refusing::check_ask;
