// Sending on a link: one call for everything that a link may send.
//
// `send_step` takes a link by value and hands it back beside the answer; `send` is the same over a link that is lent and
// updated where it stands. The caller lends buffer and payload, and gives time, random bytes and point. Nothing here
// decides or writes a byte: `nonce_out`, `handshake_out`, `keep_alive_out`, `message_out` do. The type that matters is
// `ToSend`.
#![tactic(auto)]

mod step;

ghost use Rattle.std.specs.Prelude.{◌≡◌, length};
ghost use Rattle.send.specs.Send.{send_of, send_buffer};

use handshake_in::NetPid;
use link_state::{Link, Moment};
use message_out::Outgoing;
use nonce_out::Drawn;
use refusal::Refusal;
pub use step::send_step;

// What to send; the payload or text of a message goes beside it.
#[derive(Clone, Copy)]
pub enum ToSend {
    // with what the caller drew for it
    // Kept: it goes beside the enum, as in the definitions `send_of` and `send_buffer`, which the theorems of link_calls,
    // link_padding and link_versions name; an enum may hold arrays today.
    Nonce,
    Handshake { sender: NetPid, peer: NetPid },
    // the ID of the Ping
    Ping(u64),
    Pong,
    Message(Outgoing),
}

// The link is lent, and updated where it stands.
pub fn send(
    link: &mut Link,
    buf: &mut [u8],
    payload: &[u8],
    what: ToSend,
    drawn: Drawn,
    moment: Moment,
) -> Result<usize, Refusal>
    ensures { (result ≡ (send_of link.old what payload.now drawn moment (length buf.old)).answer)
        × (link.new ≡ (send_of link.old what payload.now drawn moment (length buf.old)).link)
        × (buf.new ≡ send_buffer link.old what payload.now drawn moment buf.old) }
{
    let l = *link;
    let r = send_step(l, buf, what, payload, drawn, moment);
    *link = r.link;
    r.answer
}
