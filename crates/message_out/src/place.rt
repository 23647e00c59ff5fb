// The body's place in the packet buffer: from byte 12 on, with 4 bytes left behind it for the checksum, and on a padded
// link as many as the zeros may need.
ghost use Rattle.std.specs.Prelude.{◌≡◌, length};
ghost use Rattle.message_out.specs.Outgoing.{body_of};
ghost use Rattle.message_out.specs.Parts.{placed_answer, placed_in};

use crate::Outgoing;
use crate::write::write_body;
use link_state::Link;
use packet_out::usable;
use refusal::Refusal;

// Writes the body from byte 12 on if the packet fits, else refuses it and leaves the buffer as it is.
pub(crate) fn place_body(
    buf: &mut [u8],
    link: Link,
    what: Outgoing,
    payload: &[u8],
) -> Result<usize, Refusal>
    ensures { (result ≡ placed_answer link what payload.now (length buf.old))
        × (buf.new ≡ placed_in result buf.old (body_of what payload.now)) }
{
    let n = usable(link, buf.len());
    // No packet fits: a body that is not refused is too long, even an empty one.
    if n < 16 {
        let r = write_body(&mut buf[0..0], what, payload);
        return r.and(Err(Refusal::BufferTooSmall));
    }
    write_body(&mut buf[12..n - 4], what, payload)
}
