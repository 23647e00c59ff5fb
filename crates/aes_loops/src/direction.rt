// What enciphering and deciphering differ in.
ghost use Rattle.std.specs.Prelude.{◌≡◌, ℕ, List, ◌+◌, ◌≤◌, ◌<◌, length, take, drop};
ghost use Rattle.aes.specs.Words.{bytes_of};
ghost use Rattle.aes.specs.declared.Quad.{Quad};
ghost use Rattle.aes_loops.specs.Rounds.{Rounds, ciphered};

use super::column::Look;
use aes::Quad;

pub trait Direction {
    // The look-ups of a round.
    type Inner: Look;

    // Those of the last round, which has no matrix step.
    type Last: Look;

    // The words from which a block's first column has its rows.
    ghost first_rows: { Quad → Quad };

    // And from those the next column's.
    ghost next_rows: { Quad → Quad };

    // Where the round key of round n stands.
    ghost place_of: { ℕ → ℕ };

    // What a round makes of a block, but for the round key.
    ghost round_makes: { List ℕ → List ℕ };

    // And the last one.
    ghost last_makes: { List ℕ → List ℕ };

    // What the round keys make of a block.
    ghost block_makes: { List ℕ → List ℕ → List ℕ };

    // What is ciphered, by the vector and the block that stands there.
    ghost enters: { List ℕ → List ℕ → List ℕ };

    // What is stored in its place, by the vector and what the ciphering gave.
    ghost leaves: { List ℕ → List ℕ → List ℕ };

    // The next block's vector, by the block that stood there and what is stored.
    ghost carries: { List ℕ → List ℕ → List ℕ };

    fn facing(s: Quad) -> Quad
        ensures { result ≡ first_rows s };

    fn onward(q: Quad) -> Quad
        ensures { result ≡ next_rows q };

    // Where the round key of round n is read; called for rounds below 15 alone.
    fn place(n: usize) -> usize
        requires { n < 15 }
        ensures is { result ≡ place_of n }
        ensures within { result + 16 ≤ 240 };

    fn entering(v: Quad, x: Quad) -> Quad
        ensures { bytes_of result ≡ enters (bytes_of v) (bytes_of x) };

    fn leaving(v: Quad, y: Quad) -> Quad
        ensures { bytes_of result ≡ leaves (bytes_of v) (bytes_of y) };

    fn carried(x: Quad, z: Quad) -> Quad
        ensures { bytes_of result ≡ carries (bytes_of x) (bytes_of z) };

    // Four columns are a round.
    ghost inner: { Rounds Self.Inner.makes first_rows next_rows round_makes };

    ghost last: { Rounds Self.Last.makes first_rows next_rows last_makes };

    // Thirteen rounds and the last one are the cipher.
    ghost whole: { (k s : List ℕ) → ciphered round_makes last_makes place_of k s ≡ block_makes k s };
}
