// One event of the relay walk: the call that it names is made on a table of requests in flight, and the lines that
// tell the answer are written. It never reads or writes a file: the caller lends the table of crate `inflight`
// and the room for the lines. `turn` is the one call. `Event` is an event that was read,
// `NoEvent` says why none was; crate `walk_events` reads them from bytes, crate `walk` turns them one by one. It is total: any contents of the table,
// every event and any room have the answer that specs/Turn.antt gives. specs/Lines.antt has the lines.
#![tactic(auto)]

mod lines;
mod turns;

use inflight::{FrontNumber, Peer, PublisherNumber};
pub use turns::turn;

// An event that was read.
#[derive(Clone, Copy)]
pub enum Event {
    // Kind 1: an ask with time 0 and timeout 0.
    Ask(u8, FrontNumber, u8),
    Reply(u8, PublisherNumber),
    Cancel(u8, FrontNumber),
    // Kind 4 of a front link, kind 5 of a publisher.
    Gone(Peer),
    // Kind 6: an ask with a time and a timeout.
    AskBy(u8, FrontNumber, u8, u64, u32),
    // Kind 7, with its time.
    RunOut(u64),
}

// Why no event stands at the front of some bytes.
#[derive(Clone, Copy)]
pub enum NoEvent {
    // No byte.
    End,
    // A record whose last byte is not there.
    Cut,
    // A kind byte that is none of the seven.
    Unknown,
}
