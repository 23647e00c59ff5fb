// The by-value core of send.
ghost use Rattle.std.specs.Prelude.{◌≡◌, length};
ghost use Rattle.send.specs.Send.{send_of, send_buffer};

use crate::ToSend;
use handshake_out::handshake_step;
use keep_alive_out::{ping_step, pong_step};
use link_state::{Link, Moment};
use message_out::message_step;
use nonce_out::{Drawn, nonce_step};
use send_rules::Step;

// The packet at the front of the buffer, and the link after it; or a refusal, which changes neither.
#[tactic(auto, unfolding(crate::specs::Send::send_of, crate::specs::Send::send_buffer))]
pub fn send_step(
    link: Link,
    buf: &mut [u8],
    what: ToSend,
    payload: &[u8],
    drawn: Drawn,
    moment: Moment,
) -> Step
    ensures { (result ≡ send_of link what payload.now drawn moment (length buf.old))
        × (buf.new ≡ send_buffer link what payload.now drawn moment buf.old) }
{
    match what {
        ToSend::Nonce => nonce_step(link, buf, drawn, moment),
        ToSend::Handshake { sender, peer } => handshake_step(link, buf, sender, peer),
        ToSend::Ping(id) => ping_step(link, buf, id),
        ToSend::Pong => pong_step(link, buf),
        ToSend::Message(message) => message_step(link, buf, message, payload),
    }
}
