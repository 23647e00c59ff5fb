// Links: what a receive call makes of lent bytes, and the link after it.
//
// A caller lends bytes and the moment, and gets an answer; no socket, clock or random source is touched. `receive_step`
// takes a link by value and hands it back beside the answer; `receive` is the same over a link that is lent and updated
// where it stands. Framing is in the crate `packet_in`, the bodies of the opening in `opening` and `handshake_in`, the
// link after a packet or a refusal in `link_next`, sending in `send`.
#![tactic(auto)]

mod step;
mod turn;

ghost use Rattle.std.specs.Prelude.{◌≡◌};
ghost use Rattle.link.specs.Receive.{receive_of};

use link_state::{Link, Moment};
use packet::Arrival;
use refusal::Refusal;
pub use step::receive_step;

// The link after a receive call, and the answer.
#[derive(Clone, Copy)]
pub struct Received {
    pub link: Link,
    pub answer: Result<Arrival, Refusal>,
}

// The link is lent, and updated where it stands.
pub fn receive(link: &mut Link, bytes: &[u8], moment: Moment) -> Result<Arrival, Refusal>
    ensures { (result ≡ (receive_of link.old bytes.now moment).answer)
        × (link.new ≡ (receive_of link.old bytes.now moment).link) }
{
    let r = receive_step(*link, bytes, moment);
    *link = r.link;
    r.answer
}
