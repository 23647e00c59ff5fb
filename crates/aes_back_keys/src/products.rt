// A byte's products with the first column of the inverse matrix.
ghost use Rattle.std.specs.Prelude.{◌≡◌, ◌<◌};
ghost use Rattle.aes.specs.Field.{xtime};
ghost use Rattle.aes.specs.Words.{bytes4, unproducts};

// Times x.
fn double(a: u32) -> u32
    requires { a < 256 }
    ensures { (result ≡ xtime a) × (result < 256) }
{
    if a < 128 {
        return a * 2;
    }
    (a * 2 - 256) ^ 0x1b
}

// 14, 9, 13 and 11 times a, the first lowest.
#[tactic(auto, using(crate::proofs::Doubling::xor_byte))]
pub(crate) fn look(a: u32) -> u32
    requires { a < 256 }
    ensures { bytes4 result ≡ unproducts a }
{
    let b = double(a);
    let c = double(b);
    let d = double(c);
    (b ^ (c ^ d)) + (a ^ d) * 256 + (a ^ (c ^ d)) * 65536 + (a ^ (b ^ d)) * 16777216
}
