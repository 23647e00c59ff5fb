// The NetPIDs of the other side's Handshake.
ghost use Rattle.std.specs.Prelude.{◌≡◌, ◌≤◌};
ghost use Rattle.handshake_in.specs.Pids.{pid_at, pids_of};

use crate::{NetPid, NetPids};
use wire::{u16_at, u32_at};

// The NetPID whose 12 bytes begin at at.
#[tactic(auto, unfolding(crate::specs::Pids::pid_at))]
fn pid_at(b: &[u8], at: usize) -> NetPid
    requires { at ≤ 16 }
    ensures { result ≡ pid_at b.now at }
{
    let ip = u32_at(b, at);
    let port = u16_at(b, at + 4);
    let pid = u16_at(b, at + 6);
    let start = u32_at(b, at + 8);
    NetPid {
        ip,
        port,
        pid,
        start,
    }
}

// The NetPIDs that a Handshake with this body names. Of a body under 28 bytes, which a receive call refuses with 7,
// what is there is read, and the rest counts as 0.
#[tactic(auto, unfolding(crate::specs::Pids::pids_of))]
pub fn net_pids(b: &[u8]) -> NetPids
    ensures { result ≡ pids_of b.now }
{
    let sender = pid_at(b, 4);
    let peer = pid_at(b, 16);
    NetPids { sender, peer }
}
