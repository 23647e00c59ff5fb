// Slots by link and front number: the numbers are looked at four at a time.
ghost use Rattle.std.specs.Prelude.{◌≡◌, ◌&&◌, ◌+◌, ◌%◌, ◌<◌, eqb};
ghost use Rattle.inflight.specs.Masks.{slots, seek};
ghost use Rattle.inflight.specs.Tables.{is_front};
ghost use Rattle.inflight_fronts.specs.Four.{none_of, first_of_four};

use inflight::FrontNumber;

// Whether the request in slot i has a link and a front number, and the lowest bit of m is set.
fn front_at(
    numbers: &[i64; 136],
    places: &[u8; 128],
    i: usize,
    m: u64,
    link: u8,
    n: FrontNumber,
) -> bool
    requires { i < 64 }
    ensures { result ≡ (eqb (m % 2) 1 && is_front numbers.now places.now link n i) }
{
    if FrontNumber(numbers[i]) != n {
        return false;
    }
    if places[i] != link {
        return false;
    }
    m % 2 == 1
}

// Whether the requests in four slots have other front numbers: one test for all.
fn none_of_four(numbers: &[i64; 136], i: usize, n: FrontNumber) -> bool
    requires { i + 3 < 64 }
    ensures { result ≡ none_of numbers.now n i }
{
    let first = FrontNumber(numbers[i]) == n;
    let second = FrontNumber(numbers[i + 1]) == n;
    let third = FrontNumber(numbers[i + 2]) == n;
    let fourth = FrontNumber(numbers[i + 3]) == n;
    !(first | second | third | fourth)
}

// The first of four slots that the lowest bits of m have and whose request has a link and a front number, looked at one
// by one; 64 where there is none.
fn one_of_four(
    numbers: &[i64; 136],
    places: &[u8; 128],
    i: usize,
    m: u64,
    link: u8,
    n: FrontNumber,
) -> usize
    requires { i + 3 < 64 }
    ensures { result ≡ first_of_four (is_front numbers.now places.now link n) m i }
{
    if front_at(numbers, places, i, m, link, n) {
        return i;
    }
    if front_at(numbers, places, i + 1, m / 2, link, n) {
        return i + 1;
    }
    if front_at(numbers, places, i + 2, m / 4, link, n) {
        return i + 2;
    }
    if front_at(numbers, places, i + 3, m / 8, link, n) {
        return i + 3;
    }
    64
}

// The same: most often none of the four has the number, and that is one test.
fn front_of_four(
    numbers: &[i64; 136],
    places: &[u8; 128],
    i: usize,
    m: u64,
    link: u8,
    n: FrontNumber,
) -> usize
    requires { i + 3 < 64 }
    ensures { result ≡ first_of_four (is_front numbers.now places.now link n) m i }
{
    if none_of_four(numbers, i, n) {
        return 64;
    }
    one_of_four(numbers, places, i, m, link, n)
}

// The first slot of a mask whose request has a link and a front number; 64 where there is none. A front link's
// requests may be in any slot: the numbers are looked at four at a time, which is quicker than from one bit of the mask
// to the next.
pub fn find_front(
    mask: u64,
    numbers: &[i64; 136],
    places: &[u8; 128],
    link: u8,
    n: FrontNumber,
) -> usize
    ensures { result ≡ seek (is_front numbers.now places.now link n) (slots mask) }
{
    let mut m = mask;
    let mut i: usize = 0;
    while m != 0 {
        let s = front_of_four(numbers, places, i, m, link, n);
        if s != 64 {
            return s;
        }
        m = m / 16;
        i += 4;
    }
    64
}
