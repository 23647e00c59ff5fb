// Words of four bytes, the first lowest, and four of them: a block.
ghost use Rattle.std.specs.Prelude.{◌≡◌, ◌+◌, ◌≤◌, ◌%◌, length, take, drop};
ghost use Rattle.std.proofs.lemmas.List.Edits.{sets};
ghost use Rattle.aes.specs.Aes.{add};
ghost use Rattle.aes.specs.Words.{bytes4, bytes_of};
ghost use Rattle.aes_loops.specs.Rows.{turns};

use aes::Quad;

// The word at an offset: of four reads in bounds the compiler makes one.
pub(crate) fn word_at(k: &[u8], at: usize) -> u32
    requires { at + 4 ≤ length k.now }
    ensures { bytes4 result ≡ take 4 (drop at k.now) }
{
    u32::from(k[at])
        + u32::from(k[at + 1]) * 256
        + u32::from(k[at + 2]) * 65536
        + u32::from(k[at + 3]) * 16777216
}

// A word, stored at an offset.
fn put_word(b: &mut [u8], at: usize, x: u32)
    requires { at + 4 ≤ length b.old }
    ensures { b.new ≡ sets b.old at (bytes4 x) }
{
    b[at] = (x % 256) as u8;
    b[at + 1] = (x / 256 % 256) as u8;
    b[at + 2] = (x / 65536 % 256) as u8;
    b[at + 3] = (x / 16777216 % 256) as u8;
}

// A word, turned by r bytes: its last byte comes first, r times.
pub fn rotated(x: u32, r: u32) -> u32
    ensures { bytes4 result ≡ turns (r % 4) (bytes4 x) }
{
    x.rotate_left(8 * (r % 4))
}

// A block, read.
pub fn load(b: &[u8; 16]) -> Quad
    ensures { bytes_of result ≡ b.now }
{
    Quad {
        a: word_at(b, 0),
        b: word_at(b, 4),
        c: word_at(b, 8),
        d: word_at(b, 12),
    }
}

// Two blocks, added.
pub fn both(p: Quad, v: Quad) -> Quad
    ensures { bytes_of result ≡ add (bytes_of p) (bytes_of v) }
{
    Quad {
        a: p.a ^ v.a,
        b: p.b ^ v.b,
        c: p.c ^ v.c,
        d: p.d ^ v.d,
    }
}

// A block, stored.
pub fn store(b: &mut [u8; 16], s: Quad)
    ensures { b.new ≡ bytes_of s }
{
    put_word(b, 0, s.a);
    put_word(b, 4, s.b);
    put_word(b, 8, s.c);
    put_word(b, 12, s.d);
}
