// One step.
ghost use Rattle.std.specs.Prelude.{◌≡◌, ◌<◌};
ghost use Rattle.sha1_hash.specs.Sha1.{mixing, constant, step};

use super::State;

// The functions Ch, Parity, Maj and Parity.
#[tactic(auto, unfolding(crate::specs::Sha1::mixing))]
fn mixing(t: usize, x: u32, y: u32, z: u32) -> u32
    ensures { result ≡ mixing t x y z }
{
    if t < 20 {
        (x & y) ^ (!x & z)
    } else if t < 40 {
        x ^ y ^ z
    } else if t < 60 {
        (x & y) ^ (x & z) ^ (y & z)
    } else {
        x ^ y ^ z
    }
}

#[tactic(auto, unfolding(crate::specs::Sha1::constant))]
fn constant(t: usize) -> u32
    ensures { result ≡ constant t }
{
    if t < 20 {
        0x5a82_7999
    } else if t < 40 {
        0x6ed9_eba1
    } else if t < 60 {
        0x8f1b_bcdc
    } else {
        0xca62_c1d6
    }
}

pub(crate) fn step(w: &[u32; 80], t: usize, q: State) -> State
    requires { t < 80 }
    ensures { result ≡ step w.now t q }
{
    let f = mixing(t, q.b, q.c, q.d);
    let v = q
        .a
        .rotate_left(5)
        .wrapping_add(f)
        .wrapping_add(q.e)
        .wrapping_add(constant(t));
    State {
        a: v.wrapping_add(w[t]),
        b: q.a,
        c: q.b.rotate_left(30),
        d: q.c,
        e: q.d,
    }
}
