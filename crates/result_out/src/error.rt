// A result with an error.
ghost use Rattle.std.specs.Prelude.{◌≡◌, length};
ghost use Rattle.body.specs.Written.{bytes_after};
ghost use Rattle.result_out.specs.WriteResult.{error_size, error_bytes, error_answer};

use body::size_or_refusal;
use header::REQ_ERROR;
use refusal::Refusal;
use store::put_u32;
use store_signed::{put_i32, put_i64};
use text_out::{put_text, text_size};

// The size of the whole body.
#[tactic(auto, unfolding(crate::specs::WriteResult::error_size))]
pub fn error_size(text: &[u8]) -> usize
    ensures { result ≡ error_size text.now }
{
    16 + text_size(text)
}

// Writes the body at the front of d, or refuses it and leaves d as it is.
pub fn write_error(d: &mut [u8], number: i64, code: i32, text: &[u8]) -> Result<usize, Refusal>
    ensures { (result ≡ error_answer number code text.now (length d.old))
        × (d.new ≡ bytes_after result d.old (error_bytes number code text.now)) }
{
    let size = error_size(text);
    let size = size_or_refusal(number, false, size, d.len())?;
    put_i64(d, 0, number);
    put_u32(d, 8, REQ_ERROR);
    put_i32(d, 12, code);
    put_text(d, 16, text);
    Ok(size)
}
