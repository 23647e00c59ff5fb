// Masks: bit i stands for slot i.
ghost use Rattle.std.specs.Prelude.{◌≡◌, ◌-◌, ◌^◌, ◌%◌, ◌≤◌, ◌<◌};
ghost use Rattle.std.specs.Int.Bits.{bit_and};
ghost use Rattle.std.specs.Int.Count.{ones, count_trailing_zeros};
ghost use Rattle.inflight.specs.Masks.{lowest_free, has};

// How many slots a mask has.
pub fn count(m: u64) -> usize
    ensures { (result ≡ ones m) × (result ≤ 64) }
{
    u64::count_ones(m) as usize
}

// The mask of one slot.
pub fn bit(i: usize) -> u64
    ensures { result ≡ 2 ^ (i % 64) }
{
    1u64 << (i % 64)
}

// The lowest slot of a mask; 64 where it has none.
pub(crate) fn lowest(m: u64) -> usize
    ensures { (result ≡ count_trailing_zeros 64 m) × (result ≤ 64) }
{
    u64::trailing_zeros(m) as usize
}

// A mask without its lowest slot.
pub(crate) fn rest(m: u64) -> u64
    requires { 0 < m }
    ensures { result ≡ bit_and m (m - 1) }
{
    m & (m - 1)
}

// The lowest slot that a mask does not have; 64 where it has all.
pub fn lowest_free(m: u64) -> usize
    ensures { (result ≡ lowest_free m) × (result ≤ 64) × (result < 64 → ones m < 64) }
{
    lowest(!m)
}

// Whether a mask has the slot that a byte names.
pub fn holds(m: u64, x: u8) -> bool
    ensures { result ≡ has m x }
{
    (m >> (x % 64)) % 2 == 1
}
