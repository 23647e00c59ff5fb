// Sending.
ghost use Rattle.std.specs.Prelude.{◌≡◌, length};
ghost use Rattle.send.specs.Send.{send_of, send_buffer};
ghost use Rattle.send_c.specs.ToSend.{to_send_of, drawn_of};
ghost use Rattle.send_c.specs.SentFields.{sent_fields};

use crate::{RelayOutgoing, RelaySent};
use link_state::{Link, Moment};
use nonce_out::Drawn;
use refusal::Refusal;
use send::{ToSend, send};

impl From<Result<usize, Refusal>> for RelaySent {
    ghost from_gives = { λ answer fields. fields ≡ sent_fields answer };

    #[tactic(auto, unfolding(crate::specs::SentFields::sent_fields))]
    fn from(answer: Result<usize, Refusal>) -> RelaySent {
        match answer {
            Ok(size) => RelaySent { refusal: 0, size },
            Err(refusal) => RelaySent {
                refusal: u8::from(refusal),
                size: 0,
            },
        }
    }
}

// One packet, at the front of the buffer. The link is lent, and updated where it stands.
#[unsafe(no_mangle)]
pub extern "C" fn relay_send(
    link: &mut Link,
    buf: &mut [u8],
    payload: &[u8],
    what: RelayOutgoing,
    moment: Moment,
) -> RelaySent
    ensures { (result ≡ sent_fields (send_of link.old (to_send_of what) payload.now (drawn_of what) moment (length buf.old)).answer)
        × (link.new ≡ (send_of link.old (to_send_of what) payload.now (drawn_of what) moment (length buf.old)).link)
        × (buf.new ≡ send_buffer link.old (to_send_of what) payload.now (drawn_of what) moment buf.old) }
{
    let drawn = Drawn::from(what);
    RelaySent::from(send(link, buf, payload, ToSend::from(what), drawn, moment))
}
