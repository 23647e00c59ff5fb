// The body of a packet, as the part of the lent bytes that holds it.
ghost use Rattle.std.specs.Prelude.{◌≡◌};
ghost use Rattle.packet.specs.Body.{body_of};

use crate::Arrival;
use refusal::Refusal;
use wire::part;

// The body of the packet that was answered; empty where there was none, or the bytes do not have it.
#[tactic(auto, unfolding(crate::specs::Body::body_of))]
pub fn body<'a>(bytes: &'a [u8], a: Result<Arrival, Refusal>) -> &'a [u8]
    ensures { result.now ≡ body_of bytes.now a }
{
    match a {
        Ok(Arrival::Packet { at, len, .. }) => part(bytes, at, len),
        Ok(Arrival::Incomplete(_)) | Err(_) => &bytes[..0],
    }
}
