// Which types may go over a link now.
ghost use Rattle.std.specs.Prelude.{◌≡◌};
ghost use Rattle.packet.specs.Allowed.{allowed_of};

use crate::types::{HANDSHAKE, NONCE};
use link_state::Link;

// Whether a packet of this type may go over the link now, in either direction.
#[tactic(auto, unfolding(crate::specs::Allowed::allowed_of))]
pub fn allowed(link: Link, kind: u32) -> bool
    ensures { result ≡ allowed_of link kind }
{
    match link.stage {
        0 | 1 => kind == NONCE,
        2 | 3 => kind == HANDSHAKE,
        _ => kind != NONCE && kind != HANDSHAKE,
    }
}
