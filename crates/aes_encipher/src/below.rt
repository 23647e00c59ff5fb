// A test: enciphering as a direction whose author shows look-ups below place 4 and round keys below round 15 alone. The
// expected bytes are those of a program that was written from FIPS 197.
ghost use Rattle.std.specs.Prelude.{[], ◌∷◌, ◌*◌};
ghost use Rattle.aes.specs.Field.{sbox};
ghost use Rattle.aes.specs.Aes.{add, sub_bytes, shift_rows, mix_columns, cipher};
ghost use Rattle.aes.specs.Words.{products};
ghost use Rattle.aes_loops.specs.Rounds.{onward};
ghost use Rattle.aes_loops.proofs.Turns.{mixed-sums, unmixed-sums};
ghost use Rattle.aes_loops.proofs.Forth.{mixed-round, unmixed-round, cipher-is};

use aes::Quad;
use aes_columns::column_of;
use aes_loops::{Direction, Look, Total, both, chained, placed, turned};
use aes_sub::sub;

struct Mixed;

impl Look for Mixed {
    ghost adds = { products };

    ghost makes = { λ l. mix_columns (sub_bytes l) };

    ghost sum = { mixed-sums };

    fn look(x: u8, r: u32) -> u32 {
        turned(column_of(x), r)
    }
}

struct Unmixed;

impl Look for Unmixed {
    ghost adds = { λ x. sbox x ∷ 0 ∷ 0 ∷ 0 ∷ [] };

    ghost makes = { sub_bytes };

    ghost sum = { unmixed-sums };

    fn look(x: u8, r: u32) -> u32 {
        placed(sub(x), r)
    }
}

struct Enciphering;

impl Direction for Enciphering {
    type Inner = Mixed;

    type Last = Unmixed;

    ghost first_rows = { λ s. s };

    ghost next_rows = { onward };

    ghost place_of = { λ n. 16 * n };

    ghost round_makes = { λ s. mix_columns (shift_rows (sub_bytes s)) };

    ghost last_makes = { λ s. shift_rows (sub_bytes s) };

    ghost block_makes = { cipher };

    ghost enters = { λ v x. add v x };

    ghost leaves = { λ v y. y };

    ghost carries = { λ x z. z };

    ghost inner = { mixed-round };

    ghost last = { unmixed-round };

    ghost whole = { cipher-is };

    fn facing(s: Quad) -> Quad {
        s
    }

    fn onward(q: Quad) -> Quad {
        Quad {
            a: q.b,
            b: q.c,
            c: q.d,
            d: q.a,
        }
    }

    fn place(n: usize) -> usize {
        16 * n
    }

    fn entering(v: Quad, x: Quad) -> Quad {
        both(v, x)
    }

    fn leaving(_v: Quad, y: Quad) -> Quad {
        y
    }

    fn carried(_x: Quad, z: Quad) -> Quad {
        z
    }
}

#[test]
fn enciphers_two_blocks(rt: HostRuntime) {
    let mut keys = [0u8; 240];
    let mut key = 3u8;
    for k in &mut keys {
        *k = key;
        key = key.wrapping_add(7);
    }
    let mut buf = [
        0u8, 1, 2, 3, 4, 5, 6, 7, 8, 9, 10, 11, 12, 13, 14, 15, 16, 17, 18, 19, 20, 21, 22, 23, 24,
        25, 26, 27, 28, 29, 30, 31,
    ];
    let vector = [0u8, 1, 2, 3, 4, 5, 6, 7, 8, 9, 10, 11, 12, 13, 14, 15];
    let next = chained::<Total<Enciphering>>(&keys, vector, &mut buf);
    let enciphered = [
        33u8, 92, 223, 89, 72, 165, 183, 40, 104, 132, 124, 164, 74, 73, 121, 121, 65, 179, 113,
        162, 94, 164, 196, 44, 250, 214, 41, 93, 116, 5, 150, 48,
    ];
    let last = [
        65u8, 179, 113, 162, 94, 164, 196, 44, 250, 214, 41, 93, 116, 5, 150, 48,
    ];
    assert!(rt; buf == enciphered, "the buffer");
    assert!(rt; next == last, "the next vector");
}
