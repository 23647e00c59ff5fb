// Requests in flight (document 01: the ticket table): which front link asked which publisher, under which numbers.
// It never opens a socket, reads a clock or allocates. The caller keeps the `Table` and lends it; every call works where
// it stands, and a request stays in its slot until it is freed.
//
// Here are the types, the definitions and `fresh`, which starts a table. The calls stand above: `ask` in crate
// `inflight_ask`, `reply` and `cancel` in `inflight_take`, `gone` in `inflight_gone`, `run_out` in `inflight_run_out`,
// over masks and searches (`inflight_slots`, `inflight_fronts`), deadlines (`inflight_times`) and the freeing of slots
// (`inflight_free`, `inflight_drop`). Every call is total: a table that no call has made, garbage included, gets the
// answer that its definition gives (specs/Tables.antt). From a fresh table on, what the calls do is document 01's book,
// specs/Model.antt, and nothing else (crate `inflight_claims`).
#![tactic(auto)]

mod start;

pub use start::fresh;

// A front number: it belongs to a front link.
#[repr(C)]
#[derive(Clone, Copy, PartialEq, Eq)]
pub struct FrontNumber(pub i64);

// A publisher number: it belongs to a publisher's link.
#[repr(C)]
#[derive(Clone, Copy, PartialEq, Eq)]
pub struct PublisherNumber(pub i64);

// The table: 64 fixed slots. include/relay.h has the same struct for C.
// Kept: arrays side by side, and slots by number: the C interface has this layout, and the memory is fixed.
#[repr(C)]
#[derive(Clone, Copy)]
pub struct Table {
    // 0 the used slots, 1 + p those of publisher p
    pub masks: [u64; 9],
    // i the front number of slot i, 64 + i its publisher number, 128 + p the number after publisher p's last one
    pub numbers: [i64; 136],
    // i the link of slot i, 64 + i its publisher
    pub places: [u8; 128],
    // i the place of slot i in the order of acceptance, 0 the oldest
    pub order: [u8; 64],
    // i the deadline of slot i in ms, 0 for none; 64 the latest time seen
    pub times: [u64; 65],
}

// Who is at the other end of a connection, by side and number: a front link or a publisher.
#[derive(Clone, Copy)]
pub enum Peer {
    Front(u8),
    Publisher(u8),
}

// A request's end at its front link, where a reply goes.
#[derive(Clone, Copy)]
pub struct FrontEnd {
    pub link: u8,
    pub number: FrontNumber,
}

// A request's end at its publisher, where a cancel goes.
#[derive(Clone, Copy)]
pub struct PublisherEnd {
    pub publisher: u8,
    pub number: PublisherNumber,
}
