// The by-value core of receive.
ghost use Rattle.std.specs.Prelude.{◌≡◌};
ghost use Rattle.link.specs.Receive.{check_body, refuse, receive_of};

use crate::Received;
use crate::turn::look;
use handshake_in::check_handshake;
use link_next::{after, check_ping, check_pong, refused};
use link_state::{Link, Moment};
use opening::check_nonce;
use packet::{Arrival, HANDSHAKE, NONCE, PING, PONG, body};
use refusal::Refusal;

fn refuse(link: Link, r: Refusal) -> Received
    ensures { result ≡ refuse link r }
{
    Received {
        link: refused(link, r),
        answer: Err(r),
    }
}

// Refuses the body of a packet of this type, or lets it pass: the link reads no others.
#[tactic(auto, unfolding(crate::specs::Receive::check_body))]
fn check_body(link: Link, kind: u32, b: &[u8], moment: Moment) -> Result<(), Refusal>
    ensures { result ≡ check_body link kind b.now moment }
{
    match kind {
        NONCE => check_nonce(link, b, moment),
        HANDSHAKE => check_handshake(link.set, b),
        PING => check_ping(link, b),
        PONG => check_pong(link, b),
        _ => Ok(()),
    }
}

// What the link makes of the front of the bytes, and the link after it.
#[tactic(auto, unfolding(crate::specs::Receive::receive_of, packet::specs::Body::body_of))]
pub fn receive_step(link: Link, bytes: &[u8], moment: Moment) -> Received
    ensures { result ≡ receive_of link bytes.now moment }
{
    let seen = look(link, bytes);
    match seen {
        Ok(Arrival::Incomplete(_)) => Received { link, answer: seen },
        Ok(Arrival::Packet { kind, .. }) => {
            let b = body(bytes, seen);
            match check_body(link, kind, b, moment) {
                Ok(()) => Received {
                    link: after(link, kind, b, moment),
                    answer: seen,
                },
                Err(r) => refuse(link, r),
            }
        }
        Err(r) => refuse(link, r),
    }
}
