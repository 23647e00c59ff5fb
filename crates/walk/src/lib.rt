// The relay walk: event bytes go in, the calls that they name are made on a table of requests in flight, lines of
// text come out. It never reads or writes a file: the caller lends the table of crate `inflight`, the events
// and the room for the text. `walk` is the one call. `Walked` says how far it came, so that a caller can
// feed events in pieces. It is total: any contents of the table, every list of bytes and any room have the answer
// that specs/Walk.antt gives; but an event is begun only with 4,096 bytes of room, which the lines of any event fit, so
// a caller who lends less gets nowhere. Crate `walk_events` has the event format, crate `walk_turn` one event's call
// and its lines.
#![tactic(auto)]

mod walking;

pub use walking::walk;

// How far a walk came: the bytes of whole events and of text, and whether it stopped for good.
#[derive(Clone, Copy)]
pub struct Walked {
    pub consumed: usize,
    pub written: usize,
    pub stopped: bool,
}
