// One block: 80 steps, each right behind the word that it takes.
ghost use Rattle.std.specs.Prelude.{◌≡◌, ◌+◌, ◌<◌, ◌≤◌};
ghost use Rattle.sha1_hash.specs.Sha1.{sum, compress};
ghost use Rattle.sha1_hash.specs.Turned.{Turned};

use super::State;
use super::schedule::word;
use super::steps::step;
use hash_blocks::BlockHash;

// Puts word t behind those before it, and does step t.
fn turn(b: &[u8; 64], w: &mut [u32; 80], t: usize, q: State) -> State
    requires { t < 80 }
    ensures { (m : State) → Turned b.now m t w.old q → Turned b.now m (t + 1) w.new result }
{
    w[t] = word(b, w, t);
    step(w, t, q)
}

// Turns t to t + 3.
fn four(b: &[u8; 64], w: &mut [u32; 80], t: usize, q: State) -> State
    requires { t + 4 ≤ 80 }
    ensures { (m : State) → Turned b.now m t w.old q → Turned b.now m (t + 4) w.new result }
{
    let q = turn(b, w, t, q);
    let q = turn(b, w, t + 1, q);
    let q = turn(b, w, t + 2, q);
    turn(b, w, t + 3, q)
}

#[tactic(auto, unfolding(crate::specs::Sha1::sum))]
fn sum(p: State, q: State) -> State
    ensures { result ≡ sum p q }
{
    State {
        a: p.a.wrapping_add(q.a),
        b: p.b.wrapping_add(q.b),
        c: p.c.wrapping_add(q.c),
        d: p.d.wrapping_add(q.d),
        e: p.e.wrapping_add(q.e),
    }
}

// It reads no table.
pub(crate) struct Sha1;

impl BlockHash for Sha1 {
    type State = State;

    ghost after = { compress };

    // Kept: the turns are written out, four to a call: at a number t LLVM folds the tests on it and keeps words in
    // registers. In loops of 20 turns, the fastest of those tried, SHA-1 of 16 KiB takes 46 microseconds in place of
    // 34; of calls of five LLVM leaves some as calls.
    fn compress(&self, state: State, block: &[u8; 64]) -> State {
        let w = &mut [0; 80];
        let mut q = four(block, w, 0, state);
        q = four(block, w, 4, q);
        q = four(block, w, 8, q);
        q = four(block, w, 12, q);
        q = four(block, w, 16, q);
        q = four(block, w, 20, q);
        q = four(block, w, 24, q);
        q = four(block, w, 28, q);
        q = four(block, w, 32, q);
        q = four(block, w, 36, q);
        q = four(block, w, 40, q);
        q = four(block, w, 44, q);
        q = four(block, w, 48, q);
        q = four(block, w, 52, q);
        q = four(block, w, 56, q);
        q = four(block, w, 60, q);
        q = four(block, w, 64, q);
        q = four(block, w, 68, q);
        q = four(block, w, 72, q);
        q = four(block, w, 76, q);
        sum(state, q)
    }
}
