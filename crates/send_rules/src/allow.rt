// Whether a link may send a packet of its own now, and the link after it.
ghost use Rattle.std.specs.Prelude.{◌≡◌};
ghost use Rattle.send_rules.specs.Control.{check_send, control_answer};
ghost use Rattle.send_rules.specs.Sent.{awaits_sent, awaited_sent, owes_sent, sent_of};

use link_state::{Link, may_send, stage_after};
use packet::{PING, PONG, allowed};
use packet_out::size_or_refusal;
use packet_padding::phase_after;
use refusal::Refusal;

// Refuses to send a packet of this type now; busy: a Ping of ours is unanswered, or no Pong is owed.
#[tactic(auto, unfolding(crate::specs::Control::check_send))]
pub fn check_send(link: Link, kind: u32, busy: bool) -> Result<(), Refusal>
    ensures { result ≡ check_send link kind busy }
{
    if link.closed {
        return Err(Refusal::LinkClosed);
    }
    if !may_send(link.set.server, link.stage) {
        return Err(Refusal::NotOurTurn);
    }
    if !allowed(link, kind) {
        return Err(Refusal::TypeNotAllowed);
    }
    if busy {
        return Err(Refusal::PingOutOfTurn);
    }
    Ok(())
}

// The answer for a packet of this type with a body of so many bytes, for which there is so much room.
#[tactic(auto, unfolding(crate::specs::Control::control_answer))]
pub fn control_answer(
    link: Link,
    kind: u32,
    busy: bool,
    len: usize,
    room: usize,
) -> Result<usize, Refusal>
    ensures { result ≡ control_answer link kind busy len room }
{
    check_send(link, kind, busy)?;
    size_or_refusal(link, len, room)
}

#[tactic(auto, unfolding(crate::specs::Sent::awaits_sent))]
fn awaits_sent(link: Link, kind: u32) -> bool
    ensures { result ≡ awaits_sent link kind }
{
    if kind == PING { true } else { link.awaits }
}

#[tactic(auto, unfolding(crate::specs::Sent::awaited_sent))]
fn awaited_sent(link: Link, kind: u32, id: u64) -> u64
    ensures { result ≡ awaited_sent link kind id }
{
    if kind == PING { id } else { link.awaited }
}

#[tactic(auto, unfolding(crate::specs::Sent::owes_sent))]
fn owes_sent(link: Link, kind: u32) -> bool
    ensures { result ≡ owes_sent link kind }
{
    if kind == PONG { false } else { link.owes }
}

// The link after it sent a packet of this type, which takes n bytes; id: the ID of a Ping.
#[tactic(auto, unfolding(crate::specs::Sent::sent_of))]
pub fn sent(link: Link, kind: u32, id: u64, n: usize) -> Link
    ensures { result ≡ sent_of link kind id n }
{
    Link {
        stage: stage_after(link.stage),
        phase: phase_after(link, n),
        awaits: awaits_sent(link, kind),
        owes: owes_sent(link, kind),
        sends: link.sends.wrapping_add(1),
        awaited: awaited_sent(link, kind, id),
        ..link
    }
}
