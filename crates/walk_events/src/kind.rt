// The seven kinds of events, by the number that their first byte is.
ghost use Rattle.walk_events.specs.Kinds.{Decodes};

use walk_turn::NoEvent;

#[derive(Clone, Copy)]
pub(crate) enum Kind {
    Ask = 1,
    Reply = 2,
    Cancel = 3,
    Closed = 4,
    Lost = 5,
    AskBy = 6,
    RunOut = 7,
}

impl TryFrom<u8> for Kind {
    type Error = NoEvent;

    ghost try_from_gives = { Decodes };

    #[tactic(auto, unfolding(crate::specs::Events::body_size))]
    fn try_from(code: u8) -> Result<Self, NoEvent> {
        match code {
            1 => Ok(Kind::Ask),
            2 => Ok(Kind::Reply),
            3 => Ok(Kind::Cancel),
            4 => Ok(Kind::Closed),
            5 => Ok(Kind::Lost),
            6 => Ok(Kind::AskBy),
            7 => Ok(Kind::RunOut),
            _ => Err(NoEvent::Unknown),
        }
    }
}
