// Receiving.
ghost use Rattle.std.specs.Prelude.{◌≡◌};
ghost use Rattle.link.specs.Receive.{receive_of};
ghost use Rattle.receive_c.specs.ArrivalFields.{arrival_fields};

use crate::RelayArrival;
use link::receive;
use link_state::{Link, Moment};
use packet::Arrival;
use refusal::Refusal;

impl From<Result<Arrival, Refusal>> for RelayArrival {
    ghost from_gives = { λ answer fields. fields ≡ arrival_fields answer };

    #[tactic(auto, unfolding(crate::specs::ArrivalFields::arrival_fields))]
    fn from(answer: Result<Arrival, Refusal>) -> RelayArrival {
        let none = RelayArrival {
            tag: 0,
            refusal: 0,
            kind: 0,
            more: 0,
            consumed: 0,
            at: 0,
            len: 0,
        };
        match answer {
            Err(refusal) => RelayArrival {
                refusal: u8::from(refusal),
                ..none
            },
            Ok(Arrival::Incomplete(more)) => RelayArrival {
                tag: 1,
                more,
                ..none
            },
            Ok(
                Arrival::Packet {
                    kind,
                    consumed,
                    at,
                    len,
                },
            ) => RelayArrival {
                tag: 2,
                kind,
                consumed,
                at,
                len,
                ..none
            },
        }
    }
}

// What the link makes of the front of the bytes. The link is lent, and updated where it stands.
pub fn relay_receive(link: &mut Link, bytes: &[u8], moment: Moment) -> RelayArrival
    ensures { (result ≡ arrival_fields (receive_of link.old bytes.now moment).answer)
        × (link.new ≡ (receive_of link.old bytes.now moment).link) }
{
    RelayArrival::from(receive(link, bytes, moment))
}
