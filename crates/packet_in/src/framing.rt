// A packet at the front of the bytes: how many bytes it still lacks, why it is refused, or where its body is. On a
// padded link words may stand before it, and zeros follow it.
ghost use Rattle.std.specs.Prelude.{◌≡◌, ◌+◌, ◌≤◌, length};
ghost use Rattle.packet_in.specs.Frame.{judged_of, rows_of, frame_of};

use link_state::Link;
use packet::{Arrival, checksum_of};
use packet_head::words::words;
use packet_head::{check_head, check_length};
use packet_padding::tail;
use refusal::Refusal;
use wire::u32_at;

// A packet whose checksum should be sum, with so many zeros behind it: its checksum, then its zeros. So many bytes
// stood before it.
fn judged(
    bytes: &[u8],
    sum: u32,
    kind: u32,
    size: usize,
    zeros: usize,
    before: usize,
) -> Result<Arrival, Refusal>
    requires { (16 ≤ size) × (size + zeros ≤ length bytes.now) × (zeros ≤ 3) × (before ≤ 16) }
    ensures { result ≡ judged_of sum bytes.now kind size zeros before }
{
    if u32_at(bytes, size - 4) != sum {
        return Err(Refusal::Checksum);
    }
    let used = size + zeros;
    if u32_at(&bytes[size..used], 0) != 0 {
        return Err(Refusal::PaddingNotZero);
    }
    Ok(Arrival::Packet {
        kind,
        consumed: before + used,
        at: before + 12,
        len: size - 16,
    })
}

// What stands at the front of the bytes, from its length to its zeros. So many bytes stood before it.
#[tactic(auto, unfolding(crate::specs::Frame::whole_of, crate::specs::Frame::rows_of))]
fn rows(link: Link, bytes: &[u8], before: usize) -> Result<Arrival, Refusal>
    requires { before ≤ 16 }
    ensures { result ≡ rows_of link bytes.now before }
{
    let n = bytes.len();
    if n < 4 {
        return Ok(Arrival::Incomplete(4 - n));
    }
    let len = u32_at(bytes, 0);
    check_length(link, len)?;
    if n < 12 {
        return Ok(Arrival::Incomplete(12 - n));
    }
    let kind = u32_at(bytes, 8);
    check_head(link, u32_at(bytes, 4), kind)?;
    let size = len as usize;
    let zeros = tail(link, size);
    let all = size + zeros;
    if n < all {
        return Ok(Arrival::Incomplete(all - n));
    }
    let sum = checksum_of(link, &bytes[..size - 4]);
    judged(bytes, sum, kind, size, zeros, before)
}

// What stands at the front of the bytes: words that are skipped, and a packet.
#[tactic(auto, unfolding(crate::specs::Frame::frame_of))]
pub fn frame(link: Link, bytes: &[u8]) -> Result<Arrival, Refusal>
    ensures { result ≡ frame_of link bytes.now }
{
    let w = words(link, bytes);
    if w == 4 {
        return Err(Refusal::FourthWord);
    }
    let before = w * 4;
    rows(link, &bytes[before..], before)
}
