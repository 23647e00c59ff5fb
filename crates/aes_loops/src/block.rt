// One block, round by round and column by column.
ghost use Rattle.std.specs.Prelude.{◌≡◌, ◌+◌, ◌≤◌, length};
ghost use Rattle.aes.specs.Words.{bytes_of};
ghost use Rattle.aes_loops.specs.Rounds.{Done, column_at};

use super::column::gathered;
use super::total::{TotalDirection, TotalLook};
use super::words::{both, load, word_at};
use aes::Quad;

// The words after the first, and x.
fn pushed(o: Quad, x: u32) -> Quad
    ensures { result ≡ record { a = o.b; b = o.c; c = o.d; d = x } }
{
    Quad {
        a: o.b,
        b: o.c,
        c: o.d,
        d: x,
    }
}

// A round with the look-ups of L, with the round key at an offset of k.
fn round<D: TotalDirection, L: TotalLook>(k: &[u8], at: usize, s: Quad) -> Quad
    requires { at + 16 ≤ length k.now }
    ensures { Done (column_at L.makes D.next_rows k.now at (D.first_rows s)) 4 result }
{
    let mut q = D::facing(s);
    let mut o = Quad {
        a: 0,
        b: 0,
        c: 0,
        d: 0,
    };
    for j in 0..4 {
        let x = gathered::<L>(q, word_at(k, at + j * 4));
        o = pushed(o, x);
        q = D::onward(q);
    }
    o
}

// One block.
pub(crate) fn block<D: TotalDirection>(k: &[u8; 240], s: Quad) -> Quad
    ensures { bytes_of result ≡ D.block_makes k.now (bytes_of s) }
{
    let at = D::place(0);
    let first = load(k[at..at + 16].first_chunk().unwrap());
    let mut x = both(s, first);
    for n in 0..13 {
        x = round::<D, D::Inner>(k, D::place(n + 1), x);
    }
    round::<D, D::Last>(k, D::place(14), x)
}
