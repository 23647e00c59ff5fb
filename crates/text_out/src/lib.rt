// The text form of RPC errors, written: a length, the bytes, and zeros to a multiple of 4.
//
// Both public calls are total: a text that is too long or does not fit is not stored. Nothing here looks at what the bytes
// of a text mean. The form's definition and its reader are in the crate `text`.
#![tactic(auto)]

ghost use Rattle.std.specs.Prelude.{◌≡◌, ◌+◌, ◌≤◌, ◌<◌, length, replicate};
ghost use Rattle.std.proofs.lemmas.List.Edits.{sets};
ghost use Rattle.text.specs.TextForm.{text_head, head_size, text_size, text_bytes, put_text};

use store::{put_u8, put_u32};
use store_bytes::copy;
use wire::left;

// The longest text that three bytes can tell.
const LONGEST: usize = 16777215;

// How many bytes stand before a text of n bytes.
fn head_size(n: usize) -> usize
    ensures { (result ≡ head_size n) × (result ≤ 4) }
{
    if n < 254 { 1 } else { 4 }
}

// How many bytes the whole text takes.
pub fn text_size(text: &[u8]) -> usize
    ensures { (result ≡ text_size (length text.now)) × (result ≤ length text.now + 8) }
{
    let n = head_size(text.len()) + text.len();
    n + (4 - n % 4) % 4
}

fn put_head(d: &mut [u8], at: usize, n: usize)
    requires { n < 16777216 }
    ensures { d.new ≡ sets d.old at (text_head n) }
{
    if n < 254 {
        put_u8(d, at, n as u8);
    } else {
        put_u32(d, at, 254 + 256 * (n as u32));
    }
}

fn put_zeros(d: &mut [u8], at: usize, n: usize)
    requires { at + n ≤ length d.old }
    ensures { d.new ≡ sets d.old at (replicate n 0) }
{
    d[at..at + n].fill(0);
}

// The text, at a place that has room for it.
fn store_text(d: &mut [u8], at: usize, text: &[u8])
    requires { (at + text_size (length text.now) ≤ length d.old) × (length text.now < 16777216) }
    ensures { d.new ≡ sets d.old at (text_bytes text.now) }
{
    let head = head_size(text.len());
    let n = head + text.len();
    let pad = (4 - n % 4) % 4;
    put_head(d, at, text.len());
    copy(d, at + head, text);
    put_zeros(d, at + n, pad);
}

// Writes the text from byte at of d on, if it fits there and its length fits three bytes.
#[tactic(auto, unfolding(text::specs::TextForm::put_text))]
pub fn put_text(d: &mut [u8], at: usize, text: &[u8])
    ensures { d.new ≡ put_text d.old at text.now }
{
    if text.len() <= LONGEST && text_size(text) <= left(d, at) {
        store_text(d, at, text);
    }
}
