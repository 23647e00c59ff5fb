// Enciphering, as a direction of the loops.
ghost use Rattle.std.specs.Prelude.{[], ◌∷◌, ◌*◌};
ghost use Rattle.aes.specs.Field.{sbox};
ghost use Rattle.aes.specs.Aes.{add, sub_bytes, shift_rows, mix_columns, cipher};
ghost use Rattle.aes.specs.Words.{products};
ghost use Rattle.aes_loops.specs.Rounds.{onward};
ghost use Rattle.aes_loops.proofs.Turns.{mixed-sums, unmixed-sums};
ghost use Rattle.aes_loops.proofs.Forth.{mixed-round, unmixed-round, cipher-is};

use aes::Quad;
use aes_columns::column_of;
use aes_loops::{TotalDirection, TotalLook, both, placed, turned};
use aes_sub::sub;

// A byte's substitute, times the first column of the matrix.
pub(crate) struct Mixed;

impl TotalLook for Mixed {
    ghost adds = { products };

    ghost makes = { λ l. mix_columns (sub_bytes l) };

    ghost sum = { mixed-sums };

    fn look(x: u8, r: u32) -> u32 {
        turned(column_of(x), r)
    }
}

// A byte's substitute: the last round has no matrix step.
pub(crate) struct Unmixed;

impl TotalLook for Unmixed {
    ghost adds = { λ x. sbox x ∷ 0 ∷ 0 ∷ 0 ∷ [] };

    ghost makes = { sub_bytes };

    ghost sum = { unmixed-sums };

    fn look(x: u8, r: u32) -> u32 {
        placed(sub(x), r)
    }
}

pub(crate) struct Enciphering;

impl TotalDirection for Enciphering {
    type Inner = Mixed;

    type Last = Unmixed;

    ghost first_rows = { λ s. s };

    ghost next_rows = { onward };

    ghost place_of = { λ n. 16 * n };

    ghost round_makes = { λ s. mix_columns (shift_rows (sub_bytes s)) };

    ghost last_makes = { λ s. shift_rows (sub_bytes s) };

    ghost block_makes = { cipher };

    ghost enters = { λ v x. add v x };

    ghost leaves = { λ v y. y };

    ghost carries = { λ x z. z };

    ghost inner = { mixed-round };

    ghost last = { unmixed-round };

    ghost whole = { cipher-is };

    fn facing(s: Quad) -> Quad {
        s
    }

    fn onward(q: Quad) -> Quad {
        Quad {
            a: q.b,
            b: q.c,
            c: q.d,
            d: q.a,
        }
    }

    fn place(n: usize) -> usize {
        16 * n.min(14)
    }

    // Each block is added to the ciphered one before it.
    fn entering(v: Quad, x: Quad) -> Quad {
        both(v, x)
    }

    fn leaving(_v: Quad, y: Quad) -> Quad {
        y
    }

    fn carried(_x: Quad, z: Quad) -> Quad {
        z
    }
}
