// Header, checksum and zeros, around a body that is there already.
ghost use Rattle.std.specs.Prelude.{◌≡◌};
ghost use Rattle.std.proofs.lemmas.List.Edits.{sets};
ghost use Rattle.packet_out.specs.Packet.{head_of, sealed_of};

use crate::size::{LONGEST_BODY, size_of};
use link_state::Link;
use packet::checksum_of;
use store::put_u32;

fn put_head(buf: &mut [u8], size: u32, number: u32, kind: u32)
    ensures { buf.new ≡ sets buf.old 0 (head_of size number kind) }
{
    put_u32(buf, 0, size);
    put_u32(buf, 4, number);
    put_u32(buf, 8, kind);
}

// Seals the packet of this type whose body is the len bytes from byte 12 on; where it does not fit, nothing is stored.
#[tactic(auto, unfolding(crate::specs::Packet::sealed_of))]
pub fn seal(buf: &mut [u8], link: Link, kind: u32, len: usize)
    ensures { buf.new ≡ sealed_of link kind len buf.old }
{
    if LONGEST_BODY < len {
        return;
    }
    let size = size_of(link, len);
    if buf.len() < size {
        return;
    }
    let front = len + 12;
    put_head(buf, (len + 16) as u32, link.sends, kind);
    let sum = checksum_of(link, &buf[..front]);
    put_u32(buf, front, sum);
    buf[len + 16..size].fill(0);
}
