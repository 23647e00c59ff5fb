// The body of a packet, by its place: an exported function cannot hand back a part of the bytes.
ghost use Rattle.std.specs.Prelude.{◌≡◌, length};
ghost use Rattle.link_c.specs.BodyPlace.{nowhere, body_place};

use crate::RelayPart;
use receive_c::RelayArrival;

fn no_part() -> RelayPart
    ensures { result ≡ nowhere }
{
    RelayPart { at: 0, len: 0 }
}

// Where the body of the packet that was answered is; no bytes where there was none, or the bytes do not have it.
#[unsafe(no_mangle)]
#[tactic(auto, unfolding(crate::specs::BodyPlace::body_place))]
pub extern "C" fn relay_body(bytes: &[u8], arrival: RelayArrival) -> RelayPart
    ensures { result ≡ body_place (length bytes.now) arrival }
{
    let n = bytes.len();
    if arrival.tag != 2 {
        return no_part();
    }
    if n < arrival.at {
        return no_part();
    }
    if n - arrival.at < arrival.len {
        return no_part();
    }
    RelayPart {
        at: arrival.at,
        len: arrival.len,
    }
}
