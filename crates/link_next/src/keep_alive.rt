// The other side's Ping and Pong: which are refused, and what the link keeps of them.
ghost use Rattle.std.specs.Prelude.{◌≡◌};
ghost use Rattle.link_next.specs.KeepAlive.{check_ping, check_pong, awaits_after, owes_after, owed_after};

use link_state::Link;
use packet::{PING, PONG};
use refusal::Refusal;
use wire::u64_at;

// Refuses a Ping with this body, or lets it pass.
#[tactic(auto, unfolding(crate::specs::KeepAlive::check_ping))]
pub fn check_ping(link: Link, b: &[u8]) -> Result<(), Refusal>
    ensures { result ≡ check_ping link b.now }
{
    if b.len() != 8 {
        return Err(Refusal::BodySize);
    }
    if link.owes {
        return Err(Refusal::PingOutOfTurn);
    }
    Ok(())
}

// Refuses a Pong with this body, or lets it pass.
#[tactic(auto, unfolding(crate::specs::KeepAlive::check_pong))]
pub fn check_pong(link: Link, b: &[u8]) -> Result<(), Refusal>
    ensures { result ≡ check_pong link b.now }
{
    if b.len() != 8 {
        return Err(Refusal::BodySize);
    }
    if !link.awaits {
        return Err(Refusal::PingOutOfTurn);
    }
    if u64_at(b, 0) != link.awaited {
        return Err(Refusal::PingOutOfTurn);
    }
    Ok(())
}

// Whether a Ping of ours is unanswered, after a packet.
#[tactic(auto, unfolding(crate::specs::KeepAlive::awaits_after))]
pub(crate) fn awaits_after(link: Link, kind: u32) -> bool
    ensures { result ≡ awaits_after link kind }
{
    if kind == PONG { false } else { link.awaits }
}

// Whether we owe a Pong, after a packet.
#[tactic(auto, unfolding(crate::specs::KeepAlive::owes_after))]
pub(crate) fn owes_after(link: Link, kind: u32) -> bool
    ensures { result ≡ owes_after link kind }
{
    if kind == PING { true } else { link.owes }
}

// The ID of the Pong that we owe, after a packet.
#[tactic(auto, unfolding(crate::specs::KeepAlive::owed_after))]
pub(crate) fn owed_after(link: Link, kind: u32, b: &[u8]) -> u64
    ensures { result ≡ owed_after link kind b.now }
{
    if kind == PING {
        u64_at(b, 0)
    } else {
        link.owed
    }
}
