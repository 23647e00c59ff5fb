// Capacity (document 01: room): the eight loads, each the ones of a mask, and what they take with the reserve of 4
// each.
ghost use Rattle.std.specs.Prelude.{◌≡◌};
ghost use Rattle.inflight.specs.Tables.{taken_of};

use inflight_slots::count;

// The eight loads, each counted as at least 4, added up.
pub fn capacity_taken(masks: &[u64; 9]) -> usize
    ensures { result ≡ taken_of masks.now }
{
    let mut sum: usize = 0;
    for &m in masks[1..].iter() {
        sum += count(m).max(4);
    }
    sum
}
