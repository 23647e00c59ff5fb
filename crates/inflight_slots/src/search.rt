// Slots by what they hold: a mask bounds the search, and its lowest slot is looked at first.
ghost use Rattle.std.specs.Prelude.{◌≡◌};
ghost use Rattle.inflight.specs.Requests.{due};
ghost use Rattle.inflight.specs.Masks.{slots, seek, gather};
ghost use Rattle.inflight.specs.Tables.{is_number, is_link, is_due};

use crate::bits::{bit, lowest, rest};
use inflight::PublisherNumber;

// The first slot of a mask whose request has a publisher number; 64 where there is none.
pub fn find_number(mask: u64, numbers: &[i64; 136], n: PublisherNumber) -> usize
    ensures { result ≡ seek (is_number numbers.now n) (slots mask) }
{
    let mut m = mask;
    while m != 0 {
        let i = lowest(m);
        m = rest(m);
        let x = PublisherNumber(numbers[64 + i]);
        if x == n {
            return i;
        }
    }
    64
}

// The slots of a mask whose request has a link.
pub fn find_link(mask: u64, places: &[u8; 128], link: u8) -> u64
    ensures { result ≡ gather (is_link places.now link) (slots mask) 0 }
{
    let mut m = mask;
    let mut found: u64 = 0;
    while m != 0 {
        let i = lowest(m);
        m = rest(m);
        let l = places[i];
        let b = bit(i);
        if l == link {
            found = found | b;
        }
    }
    found
}

// Whether a deadline is there, and at or before a time.
fn is_due(deadline: u64, time: u64) -> bool
    ensures { result ≡ due deadline time }
{
    if deadline == 0 {
        return false;
    }
    deadline <= time
}

// The slots of a mask whose request has a deadline that is at or before a time.
pub fn find_due(mask: u64, times: &[u64; 65], time: u64) -> u64
    ensures { result ≡ gather (is_due times.now time) (slots mask) 0 }
{
    let mut m = mask;
    let mut found: u64 = 0;
    while m != 0 {
        let i = lowest(m);
        m = rest(m);
        let deadline = times[i];
        let b = bit(i);
        if is_due(deadline, time) {
            found = found | b;
        }
    }
    found
}
