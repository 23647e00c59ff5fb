// Reading a text.
ghost use Rattle.std.specs.Prelude.{◌≡◌, ◌+◌, ◌≤◌, ◌<◌, length};
ghost use Rattle.wire.specs.Bytes.{le, part};
ghost use Rattle.text.specs.TextForm.{text_after, long_text, read_text};

use crate::Text;
use refusal::Refusal;
use wire::{u8_at, u16_at};

// The number that up to three bytes spell.
fn number_at(s: &[u8], at: usize, n: usize) -> usize
    requires few { n ≤ 3 }
    requires there { at + n ≤ length s.now }
    ensures number { result ≡ le (part s.now at n) }
    ensures small { result < 16777216 }
{
    match n {
        0 => 0,
        1 => usize::from(u8_at(s, at)),
        2 => usize::from(u16_at(s, at)),
        _ => usize::from(u16_at(s, at)) + 65536 * usize::from(u8_at(s, at + 2)),
    }
}

// The text at at, whose first byte and length take head bytes: its len bytes, then its zeros.
#[tactic(auto, unfolding(crate::specs::TextForm::text_after))]
fn text_after(s: &[u8], at: usize, head: usize, len: usize) -> Result<Text, Refusal>
    requires { (at ≤ length s.now) × (head + len < 100000000) }
    ensures { result ≡ text_after s.now at head len }
{
    let n = head + len;
    let pad = (4 - n % 4) % 4;
    if s.len() - at < n + pad {
        return Err(Refusal::MessageCut);
    }
    let end = at + n;
    if number_at(s, end, pad) != 0 {
        return Err(Refusal::TextForm);
    }
    Ok(Text {
        at: at + head,
        len,
        next: end + pad,
    })
}

// A text whose first byte is 254.
#[tactic(auto, unfolding(crate::specs::TextForm::long_text))]
fn long_text(s: &[u8], at: usize) -> Result<Text, Refusal>
    requires { at ≤ length s.now }
    ensures { result ≡ long_text s.now at }
{
    if s.len() - at < 4 {
        return Err(Refusal::MessageCut);
    }
    let len = number_at(s, at + 1, 3);
    if len < 254 {
        return Err(Refusal::TextForm);
    }
    text_after(s, at, 4, len)
}

// The text that stands at byte at of s.
#[tactic(auto, unfolding(crate::specs::TextForm::read_text))]
pub fn read_text(s: &[u8], at: usize) -> Result<Text, Refusal>
    ensures { result ≡ read_text s.now at }
{
    if s.len() <= at {
        return Err(Refusal::MessageCut);
    }
    match u8_at(s, at) {
        255 => Err(Refusal::TextForm),
        254 => long_text(s, at),
        len => text_after(s, at, 1, usize::from(len)),
    }
}
