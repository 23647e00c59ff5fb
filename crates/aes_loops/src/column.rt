// One column of a round, row by row.
ghost use Rattle.std.specs.Prelude.{◌≡◌, ℕ, List, [], ◌∷◌, ◌%◌, ◌<◌};
ghost use Rattle.aes.specs.Aes.{add};
ghost use Rattle.aes.specs.Words.{bytes4, slant};
ghost use Rattle.aes_loops.specs.Rows.{turns, ending, sums};

use super::total::TotalLook;
use aes::Quad;

// A look-up: what each byte of a row adds to the column, turned by its place. It is called for places below 4 alone.
pub trait Look {
    // What a byte adds in row 0.
    ghost adds: { ℕ → List ℕ };

    // What the row makes, all of it.
    ghost makes: { List ℕ → List ℕ };

    fn look(x: u8, r: u32) -> u32
        requires { r < 4 }
        ensures { bytes4 result ≡ turns r (adds x) };

    ghost sum: { (x y z w k : ℕ) → sums adds (x ∷ y ∷ z ∷ w ∷ []) (bytes4 k) 4
        ≡ add (makes (x ∷ y ∷ z ∷ w ∷ [])) (bytes4 k) };
}

// Four of w's eight bytes, from byte 4 - r on, modulo 4: of a word that is in w twice, the word turned by r bytes.
// Kept: with w's high half in row 0, the same for such a word, the compiler leaves the loop over columns as it is, and
// enciphering takes 7.3 ns a byte in place of 4.6.
pub fn turned(w: u64, r: u32) -> u32
    ensures { bytes4 result ≡ ending w (r % 4) }
{
    match r % 4 {
        0 => (w % 4294967296) as u32,
        1 => (w / 16777216 % 4294967296) as u32,
        2 => (w / 65536 % 4294967296) as u32,
        _ => (w / 256 % 4294967296) as u32,
    }
}

// A byte at place r of a word, r modulo 4.
pub fn placed(b: u8, r: u32) -> u32
    ensures { bytes4 result ≡ turns (r % 4) (b ∷ 0 ∷ 0 ∷ 0 ∷ []) }
{
    let x = u32::from(b);
    match r % 4 {
        0 => x,
        1 => x * 256,
        2 => x * 65536,
        _ => x * 16777216,
    }
}

// The word whose rows come from the words of s, one from each, with the round key's word k.
pub fn gathered<L: TotalLook>(s: Quad, k: u32) -> u32
    ensures { bytes4 result ≡ add (L.makes (slant s.a s.b s.c s.d)) (bytes4 k) }
{
    let mut q = s;
    let mut x = k;
    for r in 0..4 {
        let y = L::look((q.a % 256) as u8, r);
        x ^= y;
        q = Quad {
            a: q.b / 256,
            b: q.c / 256,
            c: q.d / 256,
            d: 0,
        };
    }
    x
}
