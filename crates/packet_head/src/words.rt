// The words before a packet on a padded link.
ghost use Rattle.std.specs.Prelude.{◌≡◌, ◌≤◌};
ghost use Rattle.packet_head.specs.Words.{word_at, words_of};

use link_state::Link;
use packet_padding::words_allowed;
use wire::u32_at;

// Whether a word of value 4 stands at an offset.
#[tactic(auto, unfolding(crate::specs::Words::word_at))]
fn word(bytes: &[u8], at: usize) -> bool
    requires { at ≤ 12 }
    ensures { result ≡ word_at bytes.now at }
{
    at + 4 <= bytes.len() && u32_at(bytes, at) == 4
}

// How many of them stand in front, where they may; 4 where there are more than three.
#[tactic(auto, unfolding(crate::specs::Words::words_of))]
pub fn words(link: Link, bytes: &[u8]) -> usize
    ensures { result ≡ words_of link bytes.now }
{
    if words_allowed(link) == 0 {
        return 0;
    }
    for i in 0..4 {
        if !word(bytes, i * 4) {
            return i;
        }
    }
    4
}
