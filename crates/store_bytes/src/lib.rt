// Runs of bytes, copied to an offset of a lent slice, and a lent slice cleared.
//
// `copy` stores all of its bytes, or as many as there is room for; `clear` makes every byte 0. Both are total: neither
// refuses anything, stores past the end or changes the slice's length. Nothing here knows what the bytes mean. Numbers
// are stored by the crates `store` and `store_signed`.
#![tactic(auto)]

ghost use Rattle.std.specs.Prelude.{◌≡◌, ◌+◌, ◌≤◌, length, replicate, take};
ghost use Rattle.std.proofs.lemmas.List.Edits.{sets};

use wire::left;

// The first n bytes of t from at on. The library's copy would have C's memmove called.
fn put(d: &mut [u8], at: usize, t: &[u8], n: usize)
    requires { (at + n ≤ length d.old) × (n ≤ length t.now) }
    ensures { d.new ≡ sets d.old at (take n t.now) }
{
    for i in 0..n {
        d[at + i] = t[i];
    }
}

// All of t from at on, or as much of it as d has room for. Where all fits the length is that of t, which the compiler
// often knows.
pub fn copy(d: &mut [u8], at: usize, t: &[u8])
    ensures { d.new ≡ sets d.old at t.now }
{
    let n = t.len().min(left(d, at));
    if n > 0 {
        if n == t.len() {
            put(d, at, t, t.len());
        } else {
            put(d, at, t, n);
        }
    }
}

// Every byte becomes 0.
pub fn clear(d: &mut [u8])
    ensures { d.new ≡ replicate (length d.old) 0 }
{
    d.fill(0);
}
