// The short bodies written: a cancel, and the fins.
//
// Both calls are total: a body that is refused leaves the lent bytes as they are. Nothing here knows a packet. The longer
// writers are in the crates `invoke_out` and `result_out`, and reading in `message`.
#![tactic(auto)]

ghost use Rattle.std.specs.Prelude.{◌≡◌, length};
ghost use Rattle.body.specs.Written.{bytes_after};
ghost use Rattle.cancel_out.specs.WriteShort.{cancel_bytes, cancel_answer, fin_bytes, fin_answer};

use body::size_or_refusal;
use refusal::Refusal;
use store_signed::put_i64;

// Writes the body at the front of d, or refuses it and leaves d as it is.
pub fn write_cancel(d: &mut [u8], number: i64) -> Result<usize, Refusal>
    ensures { (result ≡ cancel_answer number (length d.old))
        × (d.new ≡ bytes_after result d.old (cancel_bytes number)) }
{
    let size = size_or_refusal(number, false, 8, d.len())?;
    put_i64(d, 0, number);
    Ok(size)
}

// A fin of either side has an empty body: nothing is stored.
pub fn write_fin(d: &mut [u8]) -> Result<usize, Refusal>
    ensures { (result ≡ fin_answer) × (d.new ≡ bytes_after result d.old fin_bytes) }
{
    Ok(0)
}
