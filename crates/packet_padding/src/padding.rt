// The padded profile: how many zeros follow a packet, and where the count of our words stands after more bytes.
ghost use Rattle.std.specs.Prelude.{◌≡◌};
ghost use Rattle.packet_padding.specs.Padding.{padded_of, pads_of, tail_of, words_allowed, phase_after};

use link_state::Link;

// Whether the link has the padded profile.
#[tactic(auto, unfolding(crate::specs::Padding::padded_of))]
pub fn padded(link: Link) -> bool
    ensures { result ≡ padded_of link }
{
    link.set.padded || link.ciphered
}

// Whether what goes over the link now is padded.
#[tactic(auto, unfolding(crate::specs::Padding::pads_of))]
pub fn pads(link: Link) -> bool
    ensures { result ≡ pads_of link }
{
    2 <= link.stage && padded(link)
}

// How many zeros follow a packet of this length.
#[tactic(auto, unfolding(crate::specs::Padding::tail_of))]
pub fn tail(link: Link, len: usize) -> usize
    ensures { result ≡ tail_of link len }
{
    if pads(link) { (4 - len % 4) % 4 } else { 0 }
}

// How many words may stand before the next packet.
#[tactic(auto, unfolding(crate::specs::Padding::words_allowed))]
pub fn words_allowed(link: Link) -> usize
    ensures { result ≡ words_allowed link }
{
    if 4 <= link.stage && padded(link) {
        3
    } else {
        0
    }
}

// The words since our Handshake, modulo 4, after so many bytes more.
#[tactic(auto, unfolding(crate::specs::Padding::phase_after))]
pub fn phase_after(link: Link, n: usize) -> u8
    ensures { result ≡ phase_after link n }
{
    if pads(link) {
        ((usize::from(link.phase) + n / 4) % 4) as u8
    } else {
        link.phase
    }
}
