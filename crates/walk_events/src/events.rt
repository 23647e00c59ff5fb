// The event format: a kind byte, then a body whose length the kind fixes.
ghost use Rattle.std.specs.Prelude.{◌≡◌, get_or};
ghost use Rattle.walk_events.specs.Events.{body_size, body_of, front_number, publisher_number, event_of, size_of, waits};
ghost use Rattle.walk_events.specs.Kinds.{number};

use crate::kind::Kind;
use inflight::{FrontNumber, Peer, PublisherNumber};
use walk_turn::{Event, NoEvent};
use wire::{i64_at, u32_at, u64_at};

fn byte_at(s: &[u8], at: usize) -> u8
    ensures { result ≡ get_or s.now at 0 }
{
    s.get(at).copied().unwrap_or(0)
}

// Kept: two functions of one line; one for both types would have to be told what it makes, and be no plainer.
fn front_number(s: &[u8]) -> FrontNumber
    ensures { result ≡ front_number s.now }
{
    FrontNumber(i64_at(s, 2))
}

fn publisher_number(s: &[u8]) -> PublisherNumber
    ensures { result ≡ publisher_number s.now }
{
    PublisherNumber(i64_at(s, 2))
}

impl Kind {
    // How long the body of a kind is.
    #[tactic(auto, unfolding(crate::specs::Events::body_size))]
    fn body_size(self) -> usize
        ensures { result ≡ body_size (number self) }
    {
        match self {
            Kind::Ask => 10,
            Kind::Reply | Kind::Cancel => 9,
            Kind::Closed | Kind::Lost => 1,
            Kind::AskBy => 22,
            Kind::RunOut => 8,
        }
    }

    // The event of this kind, whose record stands at the front of s.
    #[tactic(auto, unfolding(crate::specs::Events::body_of))]
    fn event(self, s: &[u8]) -> Event
        ensures { result ≡ body_of (number self) s.now }
    {
        let place = byte_at(s, 1);
        match self {
            Kind::Ask => Event::Ask(place, front_number(s), byte_at(s, 10)),
            Kind::Reply => Event::Reply(place, publisher_number(s)),
            Kind::Cancel => Event::Cancel(place, front_number(s)),
            Kind::Closed => Event::Gone(Peer::Front(place)),
            Kind::Lost => Event::Gone(Peer::Publisher(place)),
            Kind::AskBy => Event::AskBy(
                place,
                front_number(s),
                byte_at(s, 10),
                u64_at(s, 11),
                u32_at(s, 19),
            ),
            Kind::RunOut => Event::RunOut(u64_at(s, 1)),
        }
    }
}

// What stands at the front of s.
pub fn event(s: &[u8]) -> Result<Event, NoEvent>
    ensures { result ≡ event_of s.now }
{
    let Some(&first) = s.first() else {
        return Err(NoEvent::End);
    };
    let kind = Kind::try_from(first)?;
    if s.len() <= kind.body_size() {
        return Err(NoEvent::Cut);
    }
    Ok(kind.event(s))
}

// The size of a whole record, where there is one.
pub fn record_size(e: Result<Event, NoEvent>) -> Option<usize>
    ensures { result ≡ size_of e }
{
    match e {
        Ok(Event::Ask(_, _, _)) => Some(11),
        Ok(Event::Reply(_, _) | Event::Cancel(_, _)) => Some(10),
        Ok(Event::Gone(_)) => Some(2),
        Ok(Event::AskBy(_, _, _, _, _)) => Some(23),
        Ok(Event::RunOut(_)) => Some(9),
        Err(_) => None,
    }
}

// Whether there is nothing to do until more bytes come.
pub fn must_wait(e: Result<Event, NoEvent>, last: bool) -> bool
    ensures { result ≡ waits e last }
{
    match e {
        Ok(_) | Err(NoEvent::Unknown) => false,
        Err(NoEvent::End) => true,
        Err(NoEvent::Cut) => !last,
    }
}
