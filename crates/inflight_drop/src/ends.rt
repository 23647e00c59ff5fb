// The requests that leave: how many they are, and their other ends.
ghost use Rattle.std.specs.Prelude.{◌≡◌, ◌*◌, ◌≤◌, length};
ghost use Rattle.inflight.specs.Masks.{within};
ghost use Rattle.inflight.specs.Matching.{over_front};
ghost use Rattle.inflight.specs.Tables.{ends_of};

use inflight_slots::holds;

// How many bytes of a line name slots of a mask.
pub(crate) fn count_leaving(line: &[u8], mask: u64) -> usize
    ensures { (result ≡ length (within mask line.now)) × (result ≤ length line.now) }
{
    let mut sum: usize = 0;
    for &x in line.iter() {
        if holds(mask, x) {
            sum += 1;
        }
    }
    sum
}

// Their other ends, at an offset into numbers and places, written at the front of a slice.
pub(crate) fn write_ends(
    numbers: &[i64; 136],
    places: &[u8; 128],
    line: &[u8],
    mask: u64,
    base: usize,
    out: &mut [i64],
)
    requires { (base ≤ 64) × (2 * length (within mask line.now) ≤ length out.old) }
    ensures { out.new ≡ over_front (ends_of numbers.now places.now base (within mask line.now)) out.old }
{
    let mut at: usize = 0;
    for &x in line.iter() {
        if holds(mask, x) {
            let s = base + (x % 64) as usize;
            out[at] = i64::from(places[s]);
            out[at + 1] = numbers[s];
            at += 2;
        }
    }
}
