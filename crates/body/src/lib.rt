// What the writers of message bodies share: their answer, and the order of their refusals.
//
// A writer is lent the packet buffer from byte 12 on, asks `size_or_refusal` before its first store, and stores only if
// the answer is a size. Nothing here stores a byte.
#![tactic(auto)]

ghost use Rattle.std.specs.Prelude.{◌≡◌};
ghost use Rattle.body.specs.Written.{size_or_refusal};

use refusal::Refusal;

// A packet's length, 16 more than its body's size, is at most 16,777,215.
const LARGEST_BODY: usize = 16777199;

// The answer for a body of so many bytes with this query number, for which there is so much room; header: its payload
// begins with a header's value.
pub fn size_or_refusal(
    number: i64,
    header: bool,
    size: usize,
    room: usize,
) -> Result<usize, Refusal>
    ensures { result ≡ size_or_refusal number header size room }
{
    if number == 0 {
        return Err(Refusal::NumberZero);
    }
    if header {
        return Err(Refusal::PayloadReadsAsHeader);
    }
    if LARGEST_BODY < size {
        return Err(Refusal::LengthOverLimit);
    }
    if room < size {
        return Err(Refusal::BufferTooSmall);
    }
    Ok(size)
}
