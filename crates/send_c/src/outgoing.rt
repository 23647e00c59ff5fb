// What to send, by the packet's type.
ghost use Rattle.std.specs.Prelude.{◌≡◌};
ghost use Rattle.send_c.specs.ToSend.{result_of, message_of, to_send_of, drawn_of};

use crate::RelayOutgoing;
use message::{CANCEL, CLIENT_FIN, INVOKE, RESULT, SERVER_FIN};
use message_out::Outgoing;
use nonce_out::Drawn;
use packet::{HANDSHAKE, NONCE, PING, PONG};
use send::ToSend;

fn result_of(error: bool, number: i64, code: i32) -> Outgoing
    ensures { result ≡ result_of error number code }
{
    if error {
        Outgoing::Error { number, code }
    } else {
        Outgoing::Payload(number)
    }
}

impl From<RelayOutgoing> for Outgoing {
    ghost from_gives = { λ what message. message ≡ message_of what };

    #[tactic(auto, unfolding(crate::specs::ToSend::message_of))]
    fn from(what: RelayOutgoing) -> Outgoing {
        let number = what.number;
        match what.kind {
            INVOKE => Outgoing::Invoke {
                number,
                actor: what.hasactor.then_some(what.actor),
                timeout: what.hastimeout.then_some(what.timeout),
                tl2: what.tl2,
            },
            CANCEL => Outgoing::Cancel(number),
            CLIENT_FIN => Outgoing::ClientFin,
            RESULT => result_of(what.error, number, what.code),
            SERVER_FIN => Outgoing::ServerFin,
            kind => Outgoing::Unknown(kind),
        }
    }
}

impl From<RelayOutgoing> for ToSend {
    ghost from_gives = { λ what t. t ≡ to_send_of what };

    #[tactic(auto, unfolding(crate::specs::ToSend::to_send_of))]
    fn from(what: RelayOutgoing) -> ToSend {
        match what.kind {
            NONCE => ToSend::Nonce,
            HANDSHAKE => ToSend::Handshake {
                sender: what.sender,
                peer: what.peer,
            },
            PING => ToSend::Ping(what.id),
            PONG => ToSend::Pong,
            _ => ToSend::Message(Outgoing::from(what)),
        }
    }
}

impl From<RelayOutgoing> for Drawn {
    ghost from_gives = { λ what drawn. drawn ≡ drawn_of what };

    fn from(what: RelayOutgoing) -> Drawn {
        let random = what.random;
        let point = what.point;
        Drawn { random, point }
    }
}
