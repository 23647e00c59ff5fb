// Deciphering, as a direction of the loops, with the matrix step on the round keys.
ghost use Rattle.std.specs.Prelude.{[], ◌∷◌, ◌*◌, ◌-◌};
ghost use Rattle.aes.specs.Field.{unsbox};
ghost use Rattle.aes.specs.Aes.{add, unsub_bytes, unshift_rows, unmix_columns};
ghost use Rattle.aes.specs.Back.{back_cipher};
ghost use Rattle.aes.specs.Words.{unproducts};
ghost use Rattle.aes_loops.specs.Rounds.{facing, backward};
ghost use Rattle.aes_loops.proofs.Turns.{back-mixed-sums, back-unmixed-sums};
ghost use Rattle.aes_loops.proofs.Backward.{mixed-round, unmixed-round, cipher-is};

use aes::Quad;
use aes_back_columns::back_column_of;
use aes_loops::{TotalDirection, TotalLook, both, placed, turned};
use aes_unsub::unsub;

// What a byte is the substitute of, times the first column of the inverse matrix.
pub(crate) struct Mixed;

impl TotalLook for Mixed {
    ghost adds = { λ x. unproducts (unsbox x) };

    ghost makes = { λ l. unmix_columns (unsub_bytes l) };

    ghost sum = { back-mixed-sums };

    fn look(x: u8, r: u32) -> u32 {
        turned(back_column_of(x), r)
    }
}

// What a byte is the substitute of: the last round has no matrix step.
pub(crate) struct Unmixed;

impl TotalLook for Unmixed {
    ghost adds = { λ x. unsbox x ∷ 0 ∷ 0 ∷ 0 ∷ [] };

    ghost makes = { unsub_bytes };

    ghost sum = { back-unmixed-sums };

    fn look(x: u8, r: u32) -> u32 {
        placed(unsub(x), r)
    }
}

pub(crate) struct Deciphering;

impl TotalDirection for Deciphering {
    type Inner = Mixed;

    type Last = Unmixed;

    ghost first_rows = { facing };

    ghost next_rows = { backward };

    ghost place_of = { λ n. 224 - 16 * n };

    ghost round_makes = { λ s. unmix_columns (unsub_bytes (unshift_rows s)) };

    ghost last_makes = { λ s. unsub_bytes (unshift_rows s) };

    ghost block_makes = { back_cipher };

    ghost enters = { λ v x. x };

    ghost leaves = { λ v y. add y v };

    ghost carries = { λ x z. x };

    ghost inner = { mixed-round };

    ghost last = { unmixed-round };

    ghost whole = { cipher-is };

    fn facing(s: Quad) -> Quad {
        Quad {
            a: s.a,
            b: s.d,
            c: s.c,
            d: s.b,
        }
    }

    fn onward(q: Quad) -> Quad {
        Quad {
            a: q.d,
            b: q.a,
            c: q.b,
            d: q.c,
        }
    }

    // The last round key comes first.
    fn place(n: usize) -> usize {
        224 - 16 * n.min(14)
    }

    fn entering(_v: Quad, x: Quad) -> Quad {
        x
    }

    // Each block is added to the ciphered one before it, as that came.
    fn leaving(v: Quad, y: Quad) -> Quad {
        both(y, v)
    }

    fn carried(x: Quad, _z: Quad) -> Quad {
        x
    }
}
