// Round after round, in place.
ghost use Rattle.std.specs.Prelude.{◌≡◌, length};
ghost use Rattle.aes.specs.Aes.{unmix_columns};
ghost use Rattle.aes.specs.Back.{back_keys};
ghost use Rattle.aes.specs.Words.{bytes4, bytes_of};

use super::products::look;
use aes::Quad;
use aes_loops::{load, rotated, store};

// One column.
fn unmix4(x: u32) -> u32
    ensures { bytes4 result ≡ unmix_columns (bytes4 x) }
{
    look(x % 256)
        ^ (rotated(look(x / 256 % 256), 1)
            ^ (rotated(look(x / 65536 % 256), 2) ^ rotated(look(x / 16777216 % 256), 3)))
}

fn unmix(q: Quad) -> Quad
    ensures { bytes_of result ≡ unmix_columns (bytes_of q) }
{
    Quad {
        a: unmix4(q.a),
        b: unmix4(q.b),
        c: unmix4(q.c),
        d: unmix4(q.d),
    }
}

// Rounds 1 to 13, in place.
fn all_rounds(d: &mut [u8])
    requires { length d.old ≡ 240 }
    ensures { d.new ≡ back_keys d.old }
{
    for n in 0..13 {
        let at = n * 16 + 16;
        let y = load(d[at..at + 16].first_chunk().unwrap());
        let x = unmix(y);
        // By way of an array, as in aes_loops.
        let mut key = [0u8; 16];
        store(&mut key, x);
        d[at..at + 16].copy_from_slice(&key);
    }
}

// The round keys for deciphering, of the round keys w.
pub fn back_keys(w: [u8; 240]) -> [u8; 240]
    ensures { result ≡ back_keys w }
{
    let mut d = w;
    all_rounds(&mut d);
    d
}
