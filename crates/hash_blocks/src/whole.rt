// A message: its own whole blocks, then the one or two that fill it up.
ghost use Rattle.std.specs.Prelude.{◌≡◌, ◌/◌, length};
ghost use Rattle.hash_blocks.specs.Blocks.{chained, hashed};

use super::{BlockHash, put_end};

// What a state becomes by the whole blocks of s.
fn take_in<H: BlockHash>(by: &H, state: H::State, s: &[u8]) -> H::State
    ensures { result ≡ chained H.after state s.now (length s.now / 64) }
{
    let (blocks, _) = s.as_chunks::<64>();
    let mut now = state;
    for block in blocks {
        now = by.compress(now, block);
    }
    now
}

// The state after all of s, which begins with `start`. The length goes with its highest or its lowest byte first.
pub fn hash<H: BlockHash>(by: &H, start: H::State, s: &[u8], high: bool) -> H::State
    ensures { result ≡ hashed H.after start high s.now }
{
    let state = take_in(by, start, s);
    let mut end = [0; 128];
    put_end(&mut end, s, high);
    let size = if s.len() % 64 < 56 { 64 } else { 128 };
    take_in(by, state, &end[..size])
}
