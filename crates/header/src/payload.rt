// A payload that a reader would take for a header.
ghost use Rattle.std.specs.Prelude.{◌≡◌};
ghost use Rattle.header.specs.Headers.{reads_as_header};

use crate::recognise::kind_of;
use crate::{Kind, Side};
use wire::u32_at;

// Whether the payload begins with a header's value.
#[tactic(auto, unfolding(crate::specs::Headers::reads_as_header))]
pub fn reads_as_header(side: Side, payload: &[u8]) -> bool
    ensures { result ≡ reads_as_header side payload.now }
{
    4 <= payload.len() && kind_of(side, u32_at(payload, 0)) != Kind::Other
}
