// Our Handshake: 28 bytes.
ghost use Rattle.std.specs.Prelude.{◌≡◌, ◌≤◌, length};
ghost use Rattle.std.proofs.lemmas.List.Edits.{sets};
ghost use Rattle.handshake_out.specs.Handshake.{flags_of, pid_bytes, handshake_body, handshake_step, handshake_buffer};

use handshake_in::NetPid;
use link_state::Link;
use packet::HANDSHAKE;
use send_rules::{ControlBody, Step, control_body_step};
use store::{put_u16, put_u32};

// 0x800 where we offer CRC-32C, or grant it.
#[tactic(auto, unfolding(crate::specs::Handshake::flags_of))]
fn flags(link: Link) -> u32
    ensures { result ≡ flags_of link }
{
    let flagged = if link.set.server {
        link.crc32c
    } else {
        link.set.allows
    };
    if flagged { 0x800 } else { 0 }
}

fn put_pid(buf: &mut [u8], at: usize, p: NetPid)
    requires { at ≤ 28 }
    ensures { buf.new ≡ sets buf.old at (pid_bytes p) }
{
    put_u32(buf, at, p.ip);
    put_u16(buf, at + 4, p.port);
    put_u16(buf, at + 6, p.pid);
    put_u32(buf, at + 8, p.start);
}

#[derive(Clone, Copy)]
struct Handshake {
    flags: u32,
    sender: NetPid,
    peer: NetPid,
}

impl ControlBody for Handshake {
    ghost body = { λ what. handshake_body what.flags what.sender what.peer };

    fn size(&self) -> usize {
        28
    }

    fn put(&self, buf: &mut [u8]) {
        put_u32(buf, 12, self.flags);
        put_pid(buf, 16, self.sender);
        put_pid(buf, 28, self.peer);
    }
}

// Our Handshake, with the NetPIDs as the caller gives them.
pub fn handshake_step(link: Link, buf: &mut [u8], sender: NetPid, peer: NetPid) -> Step
    ensures { (result ≡ handshake_step link sender peer (length buf.old))
        × (buf.new ≡ handshake_buffer link sender peer buf.old) }
{
    let what = Handshake {
        flags: flags(link),
        sender,
        peer,
    };
    control_body_step(link, buf, HANDSHAKE, false, 0, &what)
}
