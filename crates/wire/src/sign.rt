// The signed number that has some bits, two's complement.
ghost use Rattle.std.specs.Prelude.{◌≡◌};
ghost use Rattle.std.specs.Int.{w64};
ghost use Rattle.std.proofs.Common.{to_z};

pub fn signed64(x: u64) -> i64
    ensures { result ≡ to_z w64 x }
{
    x.cast_signed()
}
