// Events of the relay walk, read from bytes: a kind byte, then a body whose length the kind fixes. `event` is what stands
// at the front of some bytes, `record_size` how many of them it takes, and `must_wait` whether more bytes are needed
// first. It changes nothing that is lent. `Event` is a type of crate `walk_turn`, which makes the calls; crate `walk`
// reads and turns events one by one. Each function is total, on every list of bytes; specs/Events.antt has the format.
#![tactic(auto)]

mod events;
mod kind;

pub use events::{event, must_wait, record_size};
