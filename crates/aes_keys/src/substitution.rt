// The substitutes of a word's bytes.
ghost use Rattle.std.specs.Prelude.{◌≡◌, [], ◌∷◌};
ghost use Rattle.aes.specs.Field.{sbox};
ghost use Rattle.aes.specs.Aes.{add, sub_bytes};
ghost use Rattle.aes.specs.Words.{bytes4};
ghost use Rattle.aes_loops.proofs.Turns.{unmixed-sums};

use aes::Quad;
use aes_key_sub::key_sub;
use aes_loops::{TotalLook, gathered, placed};

struct Substitute;

impl TotalLook for Substitute {
    ghost adds = { λ x. sbox x ∷ 0 ∷ 0 ∷ 0 ∷ [] };

    ghost makes = { sub_bytes };

    ghost sum = { unmixed-sums };

    fn look(x: u8, r: u32) -> u32 {
        placed(key_sub(x), r)
    }
}

// The substitutes of the bytes of p, added to k.
pub(crate) fn sub_word(p: u32, k: u32) -> u32
    ensures { bytes4 result ≡ add (sub_bytes (bytes4 p)) (bytes4 k) }
{
    let q = Quad {
        a: p,
        b: p,
        c: p,
        d: p,
    };
    gathered::<Substitute>(q, k)
}
