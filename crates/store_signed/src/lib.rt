// Stores of signed little-endian numbers, two's complement, at an offset of a lent slice.
//
// `put_i32` and `put_i64` are total: what does not fit is left out, and no other byte of the slice changes. Neither
// refuses a number. Each takes the bits of its number and has crate `store` write them. The definitions are crate
// wire's.
#![tactic(auto)]

ghost use Rattle.std.specs.Prelude.{◌≡◌};
ghost use Rattle.std.proofs.lemmas.List.Edits.{sets};
ghost use Rattle.std.specs.Int.{w32, w64};
ghost use Rattle.std.proofs.Common.{of_z};
ghost use Rattle.wire.specs.Bytes.{bytes};

use store::{put_u32, put_u64};

pub fn put_i32(d: &mut [u8], at: usize, n: i32)
    ensures { d.new ≡ sets d.old at (bytes 4 (of_z w32 n)) }
{
    put_u32(d, at, n.cast_unsigned());
}

pub fn put_i64(d: &mut [u8], at: usize, n: i64)
    ensures { d.new ≡ sets d.old at (bytes 8 (of_z w64 n)) }
{
    put_u64(d, at, n.cast_unsigned());
}
