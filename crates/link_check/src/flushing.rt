// Operation 5: a flush call.
use crate::sending::print_answer;
use check_records::{fill, front};
use flush::flush;
use link_state::Link;
use std::io::{self, Read};

// Room (4).
pub(crate) fn flush_record(
    input: &mut impl Read,
    out: &impl Print,
    link: &mut Link,
) -> io::Result<bool> {
    let mut head = [0u8; 4];
    if !fill(input, &mut head)? {
        return Ok(false);
    }
    let mut space = [0xa5u8; 4096];
    let buffer: &mut [u8] = &mut space;
    let room = (wire::u32_at(&head, 0) as usize).min(buffer.len());
    let answer = flush(link, &mut buffer[..room]);
    print_answer(out, "flush", answer, front(buffer, room))?;
    Ok(true)
}
