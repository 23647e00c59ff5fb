// What follows the query number and the header: a payload, or an error.
ghost use Rattle.std.specs.Prelude.{◌≡◌};
ghost use Rattle.result.specs.ReadResult.{payload_from, read_error, read_answer};

use crate::{Answer, Reply};
use header::{Kind, Side, kind_of};
use refusal::Refusal;
use text::read_text;
use wire::{i32_at, left, u32_at};

// A payload from at to the end.
#[tactic(auto, unfolding(crate::specs::ReadResult::payload_from))]
fn payload_from(s: &[u8], number: i64, at: usize) -> Result<Reply, Refusal>
    ensures { result ≡ payload_from s.now number at }
{
    Ok(Reply {
        number,
        answer: Answer::Payload {
            at,
            len: left(s, at),
        },
    })
}

// An error's code and text, from at to the end.
#[tactic(auto, using(refusal::proofs::Passing::passed), unfolding(crate::specs::ReadResult::read_error))]
pub(crate) fn read_error(s: &[u8], number: i64, at: usize) -> Result<Reply, Refusal>
    ensures { result ≡ read_error s.now number at }
{
    if left(s, at) < 4 {
        return Err(Refusal::MessageCut);
    }
    let code = i32_at(s, at);
    let text = read_text(s, at + 4)?;
    if text.next != s.len() {
        return Err(Refusal::BodySize);
    }
    Ok(Reply {
        number,
        answer: Answer::Error {
            code,
            at: text.at,
            len: text.len,
        },
    })
}

// A payload or an error, from at to the end.
#[tactic(auto, unfolding(crate::specs::ReadResult::read_answer))]
pub(crate) fn read_answer(s: &[u8], number: i64, at: usize) -> Result<Reply, Refusal>
    ensures { result ≡ read_answer s.now number at }
{
    let room = left(s, at);
    if room < 4 {
        return payload_from(s, number, at);
    }
    match kind_of(Side::Client, u32_at(s, at)) {
        Kind::ResultHeader => Err(Refusal::HeaderRepeated),
        Kind::Error => read_error(s, number, at + 4),
        Kind::NumberedError if room < 12 => Err(Refusal::MessageCut),
        Kind::NumberedError => read_error(s, number, at + 12),
        _ => payload_from(s, number, at),
    }
}
