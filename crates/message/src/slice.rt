// The payload or text of a message, as the part of the body that holds it.
ghost use Rattle.std.specs.Prelude.{◌≡◌};
ghost use Rattle.message.specs.PartOf.{answer_part, part_of};

use crate::Message;
use refusal::Refusal;
use result::Answer;
use wire::part;

#[tactic(auto, unfolding(crate::specs::PartOf::answer_part))]
fn answer_part<'a>(s: &'a [u8], answer: Answer) -> &'a [u8]
    ensures { result.now ≡ answer_part s.now answer }
{
    match answer {
        Answer::Payload { at, len } | Answer::Error { at, len, .. } => part(s, at, len),
    }
}

// The payload or text of a message that was read in the body s; empty where it has none, names bytes that s has not,
// or was refused.
#[tactic(auto, unfolding(crate::specs::PartOf::part_of))]
pub fn part_of<'a>(s: &'a [u8], read: Result<Message, Refusal>) -> &'a [u8]
    ensures { result.now ≡ part_of s.now read }
{
    match read {
        Ok(Message::Invoke(i)) => part(s, i.at, i.len),
        Ok(Message::Result(r)) => answer_part(s, r.answer),
        Ok(Message::Cancel(_) | Message::ClientFin | Message::ServerFin) | Err(_) => &s[..0],
    }
}
