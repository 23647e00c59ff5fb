// The traits as the loops take them: a method of these is of every number, so it asks nothing of its caller.
// Kept: `Look` and `Direction`, whose authors need not show what no round asks for, would ask something of it.
ghost use Rattle.std.specs.Prelude.{◌≡◌, ℕ, List, [], ◌∷◌, ◌+◌, ◌≤◌, ◌%◌, min};
ghost use Rattle.aes.specs.declared.Quad.{Quad};
ghost use Rattle.aes.specs.Aes.{add};
ghost use Rattle.aes.specs.Words.{bytes4, bytes_of};
ghost use Rattle.aes_loops.specs.Rows.{turns, sums};
ghost use Rattle.aes_loops.specs.Rounds.{Rounds, ciphered};

use super::column::Look;
use super::direction::Direction;
use aes::Quad;

// A look-up: what each byte of a row adds to the column, turned by its place. Places are taken modulo 4.
pub trait TotalLook {
    // What a byte adds in row 0.
    ghost adds: { ℕ → List ℕ };

    // What the row makes, all of it.
    ghost makes: { List ℕ → List ℕ };

    fn look(x: u8, r: u32) -> u32
        ensures { bytes4 result ≡ turns (r % 4) (adds x) };

    ghost sum: { (x y z w k : ℕ) → sums adds (x ∷ y ∷ z ∷ w ∷ []) (bytes4 k) 4
        ≡ add (makes (x ∷ y ∷ z ∷ w ∷ [])) (bytes4 k) };
}

pub trait TotalDirection {
    // The look-ups of a round.
    type Inner: TotalLook;

    // Those of the last round, which has no matrix step.
    type Last: TotalLook;

    // The words from which a block's first column has its rows.
    ghost first_rows: { Quad → Quad };

    // And from those the next column's.
    ghost next_rows: { Quad → Quad };

    // Where the round key of round n stands.
    ghost place_of: { ℕ → ℕ };

    // What a round makes of a block, but for the round key.
    ghost round_makes: { List ℕ → List ℕ };

    // And the last one.
    ghost last_makes: { List ℕ → List ℕ };

    // What the round keys make of a block.
    ghost block_makes: { List ℕ → List ℕ → List ℕ };

    // What is ciphered, by the vector and the block that stands there.
    ghost enters: { List ℕ → List ℕ → List ℕ };

    // What is stored in its place, by the vector and what the ciphering gave.
    ghost leaves: { List ℕ → List ℕ → List ℕ };

    // The next block's vector, by the block that stood there and what is stored.
    ghost carries: { List ℕ → List ℕ → List ℕ };

    fn facing(s: Quad) -> Quad
        ensures { result ≡ first_rows s };

    fn onward(q: Quad) -> Quad
        ensures { result ≡ next_rows q };

    // Where the round key of round n is read: past the last round it is the last one.
    fn place(n: usize) -> usize
        ensures is { result ≡ place_of (min n 14) }
        ensures within { result + 16 ≤ 240 };

    fn entering(v: Quad, x: Quad) -> Quad
        ensures { bytes_of result ≡ enters (bytes_of v) (bytes_of x) };

    fn leaving(v: Quad, y: Quad) -> Quad
        ensures { bytes_of result ≡ leaves (bytes_of v) (bytes_of y) };

    fn carried(x: Quad, z: Quad) -> Quad
        ensures { bytes_of result ≡ carries (bytes_of x) (bytes_of z) };

    // Four columns are a round.
    ghost inner: { Rounds Self.Inner.makes first_rows next_rows round_makes };

    ghost last: { Rounds Self.Last.makes first_rows next_rows last_makes };

    // Thirteen rounds and the last one are the cipher.
    ghost whole: { (k s : List ℕ) → ciphered round_makes last_makes place_of k s ≡ block_makes k s };
}

// A `Look` or a `Direction`, as the loops take it: a `Look` is called for a place modulo 4, a `Direction` for no round
// past the last one.
pub struct Total<T>(T);

impl<L: Look> TotalLook for Total<L> {
    ghost adds = { L.adds };

    ghost makes = { L.makes };

    ghost sum = { L.sum };

    fn look(x: u8, r: u32) -> u32 {
        L::look(x, r % 4)
    }
}

impl<D: Direction> TotalDirection for Total<D> {
    type Inner = Total<D::Inner>;

    type Last = Total<D::Last>;

    ghost first_rows = { D.first_rows };

    ghost next_rows = { D.next_rows };

    ghost place_of = { D.place_of };

    ghost round_makes = { D.round_makes };

    ghost last_makes = { D.last_makes };

    ghost block_makes = { D.block_makes };

    ghost enters = { D.enters };

    ghost leaves = { D.leaves };

    ghost carries = { D.carries };

    ghost inner = { D.inner };

    ghost last = { D.last };

    ghost whole = { D.whole };

    fn facing(s: Quad) -> Quad {
        D::facing(s)
    }

    fn onward(q: Quad) -> Quad {
        D::onward(q)
    }

    fn place(n: usize) -> usize {
        D::place(n.min(14))
    }

    fn entering(v: Quad, x: Quad) -> Quad {
        D::entering(v, x)
    }

    fn leaving(v: Quad, y: Quad) -> Quad {
        D::leaving(v, y)
    }

    fn carried(x: Quad, z: Quad) -> Quad {
        D::carried(x, z)
    }
}
