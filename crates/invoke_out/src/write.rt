// The whole body of an invoke.
ghost use Rattle.std.specs.Prelude.{◌≡◌, length};
ghost use Rattle.body.specs.Written.{bytes_after};
ghost use Rattle.invoke_out.specs.WriteInvoke.{payload_refused, invoke_bytes, invoke_answer};

use crate::headers::{put_header, put_marker};
use crate::size::{header_size, invoke_size, marker_size};
use body::size_or_refusal;
use header::{Side, reads_as_header};
use refusal::Refusal;
use store_bytes::copy;
use store_signed::put_i64;

// Whether a reader would take the payload for a header.
#[tactic(auto, unfolding(crate::specs::WriteInvoke::payload_refused))]
fn payload_refused(tl2: bool, payload: &[u8]) -> bool
    ensures { result ≡ payload_refused tl2 payload.now }
{
    !tl2 && reads_as_header(Side::Server, payload)
}

// Writes the body at the front of d, or refuses it and leaves d as it is.
pub fn write_invoke(
    d: &mut [u8],
    number: i64,
    actor: Option<i64>,
    timeout: Option<u32>,
    tl2: bool,
    payload: &[u8],
) -> Result<usize, Refusal>
    ensures { (result ≡ invoke_answer number actor timeout tl2 payload.now (length d.old))
        × (d.new ≡ bytes_after result d.old (invoke_bytes number actor timeout tl2 payload.now)) }
{
    let refused = payload_refused(tl2, payload);
    let size = invoke_size(actor, timeout, tl2, payload);
    let size = size_or_refusal(number, refused, size, d.len())?;
    let marker = 8 + header_size(actor, timeout);
    put_i64(d, 0, number);
    put_header(d, actor, timeout);
    put_marker(d, marker, tl2);
    copy(d, marker + marker_size(tl2), payload);
    Ok(size)
}
