// Stores of unsigned little-endian numbers at an offset of a lent slice.
//
// Every call is total: what does not fit is left out. A number is stored as its bytes; where the bound is known the
// compiler makes one store of them. The definitions are crate wire's. Signed numbers are stored by crate
// `store_signed`, runs of bytes by `store_bytes`.
#![tactic(auto)]

ghost use Rattle.std.specs.Prelude.{◌≡◌};
ghost use Rattle.std.proofs.lemmas.List.Edits.{sets};
ghost use Rattle.wire.specs.Bytes.{bytes};

use store_bytes::copy;

pub fn put_u8(d: &mut [u8], at: usize, n: u8)
    ensures { d.new ≡ sets d.old at (bytes 1 n) }
{
    if at < d.len() {
        d[at] = n;
    }
}

pub fn put_u16(d: &mut [u8], at: usize, n: u16)
    ensures { d.new ≡ sets d.old at (bytes 2 n) }
{
    copy(d, at, &u16::to_le_bytes(n));
}

pub fn put_u32(d: &mut [u8], at: usize, n: u32)
    ensures { d.new ≡ sets d.old at (bytes 4 n) }
{
    copy(d, at, &u32::to_le_bytes(n));
}

pub fn put_u64(d: &mut [u8], at: usize, n: u64)
    ensures { d.new ≡ sets d.old at (bytes 8 n) }
{
    copy(d, at, &u64::to_le_bytes(n));
}
