// The blocks of a buffer, each chained to the one before it.
ghost use Rattle.std.specs.Prelude.{◌≡◌, ◌++◌, ◌*◌, ◌/◌, length, drop};
ghost use Rattle.aes.specs.Words.{bytes_of};
ghost use Rattle.aes_loops.specs.Chain.{vector_of, blocks_of};

use super::block::block;
use super::total::TotalDirection;
use super::words::{load, store};
use aes::Quad;

fn blocks<D: TotalDirection>(k: &[u8; 240], v: Quad, buf: &mut [u8]) -> Quad
    ensures vector { bytes_of result ≡ vector_of (D.block_makes k.now) D.enters D.leaves D.carries (bytes_of v) buf.old
        (length buf.old / 16) }
    ensures buffer { buf.new ≡ blocks_of (D.block_makes k.now) D.enters D.leaves D.carries (bytes_of v) buf.old
        (length buf.old / 16) ++ drop (length buf.old / 16 * 16) buf.old }
{
    let m = buf.len() / 16;
    let mut v = v;
    for i in 0..m {
        let at = i * 16;
        let x = load(buf[at..at + 16].first_chunk().unwrap());
        let y = block::<D>(k, D::entering(v, x));
        let z = D::leaving(v, y);
        // By way of an array: what a part ends as that lends its first chunk, no proof knows.
        let mut out = [0u8; 16];
        store(&mut out, z);
        buf[at..at + 16].copy_from_slice(&out);
        v = D::carried(x, z);
    }
    v
}

// The whole blocks of buf, ciphered in place under the round keys k from the vector v; the vector for the next call.
pub fn chained<D: TotalDirection>(k: &[u8; 240], v: [u8; 16], buf: &mut [u8]) -> [u8; 16]
    ensures vector { result ≡ vector_of (D.block_makes k.now) D.enters D.leaves D.carries v buf.old
        (length buf.old / 16) }
    ensures buffer { buf.new ≡ blocks_of (D.block_makes k.now) D.enters D.leaves D.carries v buf.old
        (length buf.old / 16) ++ drop (length buf.old / 16 * 16) buf.old }
{
    let q = blocks::<D>(k, load(&v), buf);
    let mut next = [0u8; 16];
    store(&mut next, q);
    next
}
