// Whether the other side may send now, and what stands at the front of the bytes, but for the body.
ghost use Rattle.std.specs.Prelude.{◌≡◌};
ghost use Rattle.link.specs.Look.{check_turn, look_of};

use link_state::{Link, may_send};
use packet::Arrival;
use packet_in::frame;
use refusal::Refusal;

// Refuses all packets where the other side may not send now.
#[tactic(auto, unfolding(crate::specs::Look::check_turn))]
fn check_turn(link: Link) -> Result<(), Refusal>
    ensures { result ≡ check_turn link }
{
    if link.closed {
        return Err(Refusal::LinkClosed);
    }
    let server = link.set.server;
    if !may_send(!server, link.stage) {
        return Err(Refusal::NotOurTurn);
    }
    Ok(())
}

#[tactic(auto, unfolding(crate::specs::Look::look_of))]
pub(crate) fn look(link: Link, bytes: &[u8]) -> Result<Arrival, Refusal>
    ensures { result ≡ look_of link bytes.now }
{
    check_turn(link)?;
    frame(link, bytes)
}
