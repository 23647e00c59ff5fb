// A result with a payload.
ghost use Rattle.std.specs.Prelude.{◌≡◌, length};
ghost use Rattle.body.specs.Written.{bytes_after};
ghost use Rattle.result_out.specs.WriteResult.{payload_size, payload_bytes, payload_answer};

use body::size_or_refusal;
use header::{Side, reads_as_header};
use refusal::Refusal;
use store_bytes::copy;
use store_signed::put_i64;

// The size of the whole body.
#[tactic(auto, unfolding(crate::specs::WriteResult::payload_size))]
pub fn payload_size(payload: &[u8]) -> usize
    ensures { result ≡ payload_size payload.now }
{
    8 + payload.len()
}

// Writes the body at the front of d, or refuses it and leaves d as it is.
pub fn write_payload(d: &mut [u8], number: i64, payload: &[u8]) -> Result<usize, Refusal>
    ensures { (result ≡ payload_answer number payload.now (length d.old))
        × (d.new ≡ bytes_after result d.old (payload_bytes number payload.now)) }
{
    let refused = reads_as_header(Side::Client, payload);
    let size = payload_size(payload);
    let size = size_or_refusal(number, refused, size, d.len())?;
    put_i64(d, 0, number);
    copy(d, 8, payload);
    Ok(size)
}
