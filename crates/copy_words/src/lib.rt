// Words copied two a turn, for the crates of the C interface that copy a table's members. Of a loop of one word a turn,
// or an assignment of a whole array, the compiler makes a call of memcpy, which their archives don't need from outside.
#![tactic(auto)]

ghost use Rattle.std.specs.Prelude.{◌≡◌, ◌+◌, ◌<◌, length, take};

// The next word.
fn put<T: Copy>(to: &mut [T], from: &[T], i: usize)
    requires in_bounds { i < length from.now }
    requires same_length { length to.old ≡ length from.now }
    requires so_far { take i to.old ≡ take i from.now }
    ensures same_length_still { length to.new ≡ length from.now }
    ensures copied { take (i + 1) to.new ≡ take (i + 1) from.now }
{
    to[i] = from[i];
}

// All words of an array.
pub fn copy<T: Copy, const N: usize>(to: &mut [T; N], from: &[T; N])
    ensures { to.new ≡ from.now }
{
    for k in 0..N / 2 {
        put(to, from, 2 * k);
        put(to, from, 2 * k + 1);
    }
    if N % 2 == 1 {
        put(to, from, N - 1);
    }
}
