// The last block or two of a message.
ghost use Rattle.std.specs.Prelude.{◌≡◌, ◌*◌};
ghost use Rattle.std.proofs.lemmas.List.Edits.{sets};
ghost use Rattle.hash_blocks.specs.Blocks.{length_bytes, end_of};

use store::put_u8;
use store_bytes::copy;

// The length in bits of n bytes, modulo 2^64, with its highest or its lowest byte first.
fn length_bytes(n: usize, high: bool) -> [u8; 8]
    ensures { result ≡ length_bytes high (8 * n) }
{
    let bits = (n as u64).wrapping_mul(8);
    if high {
        bits.to_be_bytes()
    } else {
        bits.to_le_bytes()
    }
}

// The last block or two of s filled up, at the front of d: bytes of s, 128, zeros, and the length in bits, with its
// highest or its lowest byte first.
pub fn put_end(d: &mut [u8], s: &[u8], high: bool)
    ensures { d.new ≡ sets d.old 0 (end_of high s.now) }
{
    let n = s.len();
    let r = n % 64;
    let z = (119 - r) % 64;
    copy(d, 0, &s[n - r..]);
    put_u8(d, r, 128);
    copy(d, r + 1, &[0; 64][..z]);
    copy(d, r + 1 + z, &length_bytes(n, high));
}
