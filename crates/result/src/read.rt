// The whole body of a result, and of an old error.
ghost use Rattle.std.specs.Prelude.{◌≡◌};
ghost use Rattle.result.specs.ReadResult.{read_number, after_mask, after_header, read_result, read_old_error};

use crate::Reply;
use crate::payload_or_error::{read_answer, read_error};
use header::{Kind, Side, kind_of};
use refusal::Refusal;
use wire::{signed64, u32_at, u64_at};

// A reqResultHeader stands at byte 8.
#[tactic(auto, unfolding(crate::specs::ReadResult::after_mask))]
fn after_mask(s: &[u8]) -> Result<usize, Refusal>
    ensures { result ≡ after_mask s.now }
{
    if s.len() < 16 {
        return Err(Refusal::MessageCut);
    }
    if u32_at(s, 12) != 0 {
        return Err(Refusal::HeaderNotCarried);
    }
    Ok(16)
}

// Where the answer begins.
#[tactic(auto, unfolding(crate::specs::ReadResult::after_header))]
fn after_header(s: &[u8]) -> Result<usize, Refusal>
    ensures { result ≡ after_header s.now }
{
    if s.len() < 12 {
        return Ok(8);
    }
    match kind_of(Side::Client, u32_at(s, 8)) {
        Kind::ResultHeader => after_mask(s),
        _ => Ok(8),
    }
}

// The query number, with which the body begins.
#[tactic(auto, unfolding(crate::specs::ReadResult::read_number))]
fn read_number(s: &[u8]) -> Result<i64, Refusal>
    ensures { result ≡ read_number s.now }
{
    if s.len() < 8 {
        return Err(Refusal::MessageCut);
    }
    match u64_at(s, 0) {
        0 => Err(Refusal::NumberZero),
        raw => Ok(signed64(raw)),
    }
}

// The meaning of a result's body.
#[tactic(auto, using(refusal::proofs::Passing::passed), unfolding(crate::specs::ReadResult::read_result))]
pub fn read_result(s: &[u8]) -> Result<Reply, Refusal>
    ensures { result ≡ read_result s.now }
{
    let number = read_number(s)?;
    let at = after_header(s)?;
    read_answer(s, number, at)
}

// The meaning of an old error's body.
#[tactic(auto, using(refusal::proofs::Passing::passed), unfolding(crate::specs::ReadResult::read_old_error))]
pub fn read_old_error(s: &[u8]) -> Result<Reply, Refusal>
    ensures { result ≡ read_old_error s.now }
{
    let number = read_number(s)?;
    read_error(s, number, 8)
}
