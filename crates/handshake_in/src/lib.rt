// The other side's Handshake: whether it is refused, whether it has the flag of CRC-32C, and which processes it names.
//
// The body is lent as a slice; every read is total. Nothing here changes a link or knows whose turn it is: that is the
// crate `link`. The call that matters to a caller is `net_pids`, on the body of a Handshake. The types that matter are
// its answer, `NetPids`, and `NetPid`, which `handshake_out` writes.
#![tactic(auto)]

mod handshake;
mod pids;

pub use handshake::{check_handshake, flagged};
pub use pids::net_pids;

// A process as a Handshake names it.
#[repr(C)]
#[derive(Clone, Copy)]
pub struct NetPid {
    pub ip: u32,
    pub port: u16,
    pub pid: u16,
    // its start time
    pub start: u32,
}

// The two processes that a Handshake names: who sent it, and whom the sender took its peer for.
#[repr(C)]
#[derive(Clone, Copy)]
pub struct NetPids {
    pub sender: NetPid,
    pub peer: NetPid,
}
