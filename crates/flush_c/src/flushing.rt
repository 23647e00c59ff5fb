// Flushing.
ghost use Rattle.std.specs.Prelude.{◌≡◌, length};
ghost use Rattle.flush.specs.Flush.{flush_step, flush_buffer};
ghost use Rattle.flush_c.specs.FlushFields.{flush_fields};

use crate::RelayFlushed;
use flush::flush;
use link_state::Link;
use refusal::Refusal;

impl From<Result<usize, Refusal>> for RelayFlushed {
    ghost from_gives = { λ answer fields. fields ≡ flush_fields answer };

    #[tactic(auto, unfolding(crate::specs::FlushFields::flush_fields))]
    fn from(answer: Result<usize, Refusal>) -> RelayFlushed {
        match answer {
            Ok(size) => RelayFlushed { refusal: 0, size },
            Err(refusal) => RelayFlushed {
                refusal: u8::from(refusal),
                size: 0,
            },
        }
    }
}

// The words that are due, at the front of the buffer. The link is lent, and updated where it stands.
#[unsafe(no_mangle)]
pub extern "C" fn relay_flush(link: &mut Link, buf: &mut [u8]) -> RelayFlushed
    ensures { (result ≡ flush_fields (flush_step link.old (length buf.old)).answer)
        × (link.new ≡ (flush_step link.old (length buf.old)).link)
        × (buf.new ≡ flush_buffer link.old buf.old) }
{
    RelayFlushed::from(flush(link, buf))
}
