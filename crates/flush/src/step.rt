// The by-value core of flush.
ghost use Rattle.std.specs.Prelude.{◌≡◌, ◌≤◌, length};
ghost use Rattle.std.proofs.lemmas.List.Edits.{sets};
ghost use Rattle.packet_padding.specs.Padding.{fours_of};
ghost use Rattle.flush.specs.Flush.{begun_of, words_due, flushed_of, flush_step, flush_buffer};

use link_state::Link;
use packet_padding::{padded, phase_after};
use refusal::Refusal;
use send_rules::Step;
use store::put_u32;

// Whether our Handshake was sent.
#[tactic(auto, unfolding(crate::specs::Flush::begun_of))]
fn begun(link: Link) -> bool
    ensures { result ≡ begun_of link }
{
    if link.set.server {
        4 <= link.stage
    } else {
        3 <= link.stage
    }
}

// How many words a flush writes.
#[tactic(auto, unfolding(crate::specs::Flush::words_due))]
fn words_due(link: Link) -> usize
    ensures { result ≡ words_due link }
{
    if padded(link) && begun(link) {
        (4 - usize::from(link.phase) % 4) % 4
    } else {
        0
    }
}

// So many words, up to three, at the front.
fn put_words(buf: &mut [u8], n: usize)
    requires { n ≤ 3 }
    ensures { buf.new ≡ sets buf.old 0 (fours_of n) }
{
    for word in 0..n {
        put_u32(buf, word * 4, 4);
    }
}

#[tactic(auto, unfolding(crate::specs::Flush::flushed_of))]
fn flushed(link: Link, n: usize) -> Link
    ensures { result ≡ flushed_of link n }
{
    Link {
        phase: phase_after(link, n),
        ..link
    }
}

// The words at the front of the buffer, and the link after them; or a refusal.
pub fn flush_step(link: Link, buf: &mut [u8]) -> Step
    ensures { (result ≡ flush_step link (length buf.old))
        × (buf.new ≡ flush_buffer link buf.old) }
{
    if link.closed {
        return Step {
            link,
            answer: Err(Refusal::LinkClosed),
        };
    }
    let words = words_due(link);
    let size = words * 4;
    if buf.len() < size {
        return Step {
            link,
            answer: Err(Refusal::BufferTooSmall),
        };
    }
    put_words(buf, words);
    Step {
        link: flushed(link, size),
        answer: Ok(size),
    }
}
