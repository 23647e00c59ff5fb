// The calls that take one request out of the table: reply, by publisher and number, and cancel, by link and number.
// They never open a socket, read a clock or allocate: the table of crate `inflight` is lent, and changes
// where it stands. Both are total on any contents; the types and the definitions are in crate `inflight`.
#![tactic(auto)]

mod taking;

pub use taking::{cancel, reply};
