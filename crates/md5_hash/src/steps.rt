// One block: 64 steps.
ghost use Rattle.std.specs.Prelude.{◌≡◌, ◌+◌, ◌<◌, ◌≤◌};
ghost use Rattle.md5_hash.specs.Md5.{mixing, place, step, steps, sum, compress};

use super::State;
use super::tables::{Md5, TURNS};
use hash_blocks::BlockHash;
use wire::u32_at;

// The functions F, G, H and I of the four rounds.
#[tactic(auto, unfolding(crate::specs::Md5::mixing))]
fn mixing(i: usize, x: u32, y: u32, z: u32) -> u32
    ensures { result ≡ mixing i x y z }
{
    if i < 16 {
        (x & y) | (!x & z)
    } else if i < 32 {
        (x & z) | (y & !z)
    } else if i < 48 {
        x ^ y ^ z
    } else {
        y ^ (x | !z)
    }
}

// Which word of the block step i takes.
#[tactic(auto, unfolding(crate::specs::Md5::place))]
fn place(i: usize) -> usize
    requires { i < 64 }
    ensures { (result ≡ place i) × (result < 16) }
{
    if i < 16 {
        i
    } else if i < 32 {
        (5 * i + 1) % 16
    } else if i < 48 {
        (3 * i + 5) % 16
    } else {
        7 * i % 16
    }
}

#[tactic(auto, unfolding(crate::specs::Md5::sum))]
fn sum(m: State, n: State) -> State
    ensures { result ≡ sum m n }
{
    State {
        a: m.a.wrapping_add(n.a),
        b: m.b.wrapping_add(n.b),
        c: m.c.wrapping_add(n.c),
        d: m.d.wrapping_add(n.d),
    }
}

impl Md5 {
    fn step(&self, b: &[u8; 64], i: usize, m: State) -> State
        requires { i < 64 }
        ensures { result ≡ step b.now i m }
    {
        let f = mixing(i, m.b, m.c, m.d);
        let w = m
            .a
            .wrapping_add(f)
            .wrapping_add(u32_at(b, 4 * place(i)))
            .wrapping_add(self.table[i]);
        State {
            a: m.d,
            b: m.b.wrapping_add(w.rotate_left(TURNS[i / 16 * 4 + i % 4])),
            c: m.b,
            d: m.c,
        }
    }

    // Four steps from step i on.
    fn four(&self, b: &[u8; 64], i: usize, m: State) -> State
        requires { i + 4 ≤ 64 }
        ensures { (h : State) → m ≡ steps b.now i h → result ≡ steps b.now (i + 4) h }
    {
        let m = self.step(b, i, m);
        let m = self.step(b, i + 1, m);
        let m = self.step(b, i + 2, m);
        self.step(b, i + 3, m)
    }
}

impl BlockHash for Md5 {
    type State = State;

    ghost after = { compress };

    // Kept: the steps are written out, so that in each copy of `step` the compiler knows which function mixes, which
    // word is taken and how far it turns. In a loop, by ones or by fours, MD5 of 16 KiB takes at least 39 microseconds
    // in place of 25.
    fn compress(&self, state: State, block: &[u8; 64]) -> State {
        let mut m = self.four(block, 0, state);
        m = self.four(block, 4, m);
        m = self.four(block, 8, m);
        m = self.four(block, 12, m);
        m = self.four(block, 16, m);
        m = self.four(block, 20, m);
        m = self.four(block, 24, m);
        m = self.four(block, 28, m);
        m = self.four(block, 32, m);
        m = self.four(block, 36, m);
        m = self.four(block, 40, m);
        m = self.four(block, 44, m);
        m = self.four(block, 48, m);
        m = self.four(block, 52, m);
        m = self.four(block, 56, m);
        m = self.four(block, 60, m);
        sum(state, m)
    }
}
