// The size of a packet, and whether it may be written.
ghost use Rattle.std.specs.Prelude.{◌≡◌, ◌≤◌};
ghost use Rattle.packet_out.specs.Size.{size_of, fits_of, usable_of};

use link_state::Link;
use packet_padding::{pads, tail};
use refusal::Refusal;

// A packet's length, 16 more than its body's, is at most 16,777,215.
pub(crate) const LONGEST_BODY: usize = 16777199;

// How many bytes a packet with a body of so many takes.
#[tactic(auto, unfolding(crate::specs::Size::size_of))]
pub(crate) fn size_of(link: Link, len: usize) -> usize
    requires { len ≤ 16777199 }
    ensures { result ≡ size_of link len }
{
    let length = len + 16;
    length + tail(link, length)
}

// The size of a packet with a body of so many bytes, for which there is so much room.
#[tactic(auto, unfolding(crate::specs::Size::fits_of))]
pub fn size_or_refusal(link: Link, len: usize, room: usize) -> Result<usize, Refusal>
    ensures { result ≡ fits_of link len room }
{
    if LONGEST_BODY < len {
        return Err(Refusal::LengthOverLimit);
    }
    let size = size_of(link, len);
    if room < size {
        return Err(Refusal::BufferTooSmall);
    }
    Ok(size)
}

// What of so much room a packet without its zeros may take, so that they have room too.
#[tactic(auto, unfolding(crate::specs::Size::usable_of))]
pub fn usable(link: Link, room: usize) -> usize
    ensures { result ≡ usable_of link room }
{
    if pads(link) { room - room % 4 } else { room }
}
