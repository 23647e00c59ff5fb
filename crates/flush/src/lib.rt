// Flush: the words that bring what a padded link wrote since its Handshake to whole blocks of 16 bytes.
//
// `flush_step` takes a link by value and a lent buffer, and hands the link back beside the answer: the words' size,
// with the words at the buffer's front, or a refusal, with the buffer as it was. `flush` is the same over a link that
// is lent and updated where it stands. An unpadded link, or one before its Handshake, writes nothing.
#![tactic(auto)]

mod step;

ghost use Rattle.std.specs.Prelude.{◌≡◌, length};
ghost use Rattle.flush.specs.Flush.{flush_step, flush_buffer};

use link_state::Link;
use refusal::Refusal;
pub use step::flush_step;

// The link is lent, and updated where it stands.
pub fn flush(link: &mut Link, buf: &mut [u8]) -> Result<usize, Refusal>
    ensures { (result ≡ (flush_step link.old (length buf.old)).answer)
        × (link.new ≡ (flush_step link.old (length buf.old)).link)
        × (buf.new ≡ flush_buffer link.old buf.old) }
{
    let r = flush_step(*link, buf);
    *link = r.link;
    r.answer
}
