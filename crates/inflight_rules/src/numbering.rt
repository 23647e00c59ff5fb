// Publisher numbers: the number after one, and the next that is not in flight.
ghost use Rattle.std.specs.Prelude.{◌≡◌};
ghost use Rattle.inflight.specs.Numbers.{after};
ghost use Rattle.inflight.specs.Tables.{free_of};

use inflight::PublisherNumber;
use inflight_slots::find_number;

// The number after n: 1 after the largest.
pub fn step(n: PublisherNumber) -> PublisherNumber
    ensures { result ≡ after n }
{
    if n.0 == 9223372036854775807 {
        return PublisherNumber(1);
    }
    PublisherNumber(n.0 + 1)
}

// From n on, the first number that no slot of a mask has, looked for at so many numbers; after them the next one, which
// is free on tables that a fresh one leads to: there a mask has no more slots than numbers are tried.
pub fn free_number(
    mask: u64,
    numbers: &[i64; 136],
    tries: usize,
    n: PublisherNumber,
) -> PublisherNumber
    ensures { result ≡ free_of tries mask numbers.now n }
{
    let mut left = tries;
    let mut x = n;
    while 0 < left {
        left -= 1;
        if find_number(mask, numbers, x) == 64 {
            return x;
        }
        x = step(x);
    }
    x
}
