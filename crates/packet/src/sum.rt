// The checksum of a packet, by the kind that is in use on its link.
ghost use Rattle.std.specs.Prelude.{◌≡◌};
ghost use Rattle.packet.specs.Sum.{castagnoli_of, sum_as, sum_of};

use link_state::Link;

// Whether packets go under CRC-32C now: both Handshakes still go under CRC-32.
#[tactic(auto, unfolding(crate::specs::Sum::castagnoli_of))]
fn castagnoli(link: Link) -> bool
    ensures { result ≡ castagnoli_of link }
{
    link.crc32c && 4 <= link.stage
}

fn checksum_as(agreed: bool, bytes: &[u8]) -> u32
    ensures { result ≡ sum_as agreed bytes.now }
{
    if agreed {
        checksum::crc32c(bytes)
    } else {
        checksum::crc32(bytes)
    }
}

// The checksum that a packet with these bytes before it bears on the link now. The sum is another function, without the
// link, so that this one is small and no call of it copies the link.
#[tactic(auto, unfolding(crate::specs::Sum::sum_of))]
pub fn checksum_of(link: Link, bytes: &[u8]) -> u32
    ensures { result ≡ sum_of link bytes.now }
{
    checksum_as(castagnoli(link), bytes)
}
