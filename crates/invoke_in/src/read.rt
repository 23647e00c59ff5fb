// The whole body of an invoke.
ghost use Rattle.std.specs.Prelude.{◌≡◌};
ghost use Rattle.invoke_in.specs.ReadInvoke.{invoke_of, read_invoke};

use invoke::{Invoke, effective_timeout};
use invoke_headers::{Headers, Next, next_header};
use refusal::Refusal;
use wire::{left, signed64, u64_at};

// What these headers mean, where no more follow.
fn invoke_of(s: &[u8], number: i64, h: Headers) -> Invoke
    ensures { result ≡ invoke_of s.now number h }
{
    Invoke {
        number,
        actor: h.actor,
        timeout: effective_timeout(h.timeout),
        tl2: h.tl2,
        at: h.at,
        len: left(s, h.at),
    }
}

// The meaning of an invoke's body.
#[tactic(auto, using(refusal::proofs::Passing::passed), unfolding(crate::specs::ReadInvoke::read_invoke))]
pub fn read_invoke(s: &[u8]) -> Result<Invoke, Refusal>
    ensures { result ≡ read_invoke s.now }
{
    if s.len() < 8 {
        return Err(Refusal::MessageCut);
    }
    let raw = u64_at(s, 0);
    if raw == 0 {
        return Err(Refusal::NumberZero);
    }
    let number = signed64(raw);
    let mut h = Headers {
        at: 8,
        actor: None,
        extra: false,
        timeout: None,
        tl2: false,
    };
    // Kept: a loop: each turn reads at the place where the header before it ended, which no iterator knows beforehand.
    loop {
        match next_header(s, h)? {
            Next::More(n) => h = n,
            Next::Done(d) => return Ok(invoke_of(s, number, d)),
        }
    }
}
