// The fields of each header: an actor, an extra, or both.
ghost use Rattle.std.specs.Prelude.{◌≡◌, ◌+◌, ◌≤◌, length};
ghost use Rattle.invoke_headers.specs.Headers.{read_extra, with_extra, flags_of, actor_of, both_of};

use crate::{Extra, Headers, Next};
use invoke::TIMEOUT_BIT;
use refusal::Refusal;
use wire::{i64_at, left, u32_at};

#[tactic(auto, unfolding(crate::specs::Headers::read_extra))]
fn read_extra(s: &[u8], at: usize) -> Result<Extra, Refusal>
    ensures { result ≡ read_extra s.now at }
{
    let room = left(s, at);
    if room < 4 {
        return Err(Refusal::MessageCut);
    }
    match u32_at(s, at) {
        0 => Ok(Extra {
            timeout: None,
            next: at + 4,
        }),
        TIMEOUT_BIT if room < 8 => Err(Refusal::MessageCut),
        TIMEOUT_BIT => {
            // From a slice of its own four bytes, whose length need not be looked at again.
            let field = at + 4;
            Ok(Extra {
                timeout: Some(u32_at(&s[field..field + 4], 0)),
                next: at + 8,
            })
        }
        _ => Err(Refusal::HeaderNotCarried),
    }
}

// A header that ends with an extra at at, and has said this actor.
#[tactic(auto, using(refusal::proofs::Passing::passed))]
fn with_extra(s: &[u8], at: usize, actor: Option<i64>) -> Result<Next, Refusal>
    ensures { result ≡ with_extra actor (read_extra s.now at) }
{
    let extra = read_extra(s, at)?;
    Ok(Next::More(Headers {
        at: extra.next,
        actor,
        extra: true,
        timeout: extra.timeout,
        tl2: false,
    }))
}

// rpcDestFlags at h.at.
#[tactic(auto, unfolding(crate::specs::Headers::flags_of))]
pub(crate) fn flags_header(s: &[u8], h: Headers) -> Result<Next, Refusal>
    requires { h.at + 4 ≤ length s.now }
    ensures { result ≡ flags_of s.now h }
{
    if h.extra {
        return Err(Refusal::HeaderRepeated);
    }
    with_extra(s, h.at + 4, h.actor)
}

// rpcDestActor at h.at.
#[tactic(auto, unfolding(crate::specs::Headers::actor_of))]
pub(crate) fn actor_header(s: &[u8], h: Headers) -> Result<Next, Refusal>
    ensures { result ≡ actor_of s.now h }
{
    if h.actor.is_some() {
        return Err(Refusal::HeaderRepeated);
    }
    if left(s, h.at) < 12 {
        return Err(Refusal::MessageCut);
    }
    Ok(Next::More(Headers {
        at: h.at + 12,
        actor: Some(i64_at(s, h.at + 4)),
        tl2: false,
        ..h
    }))
}

// rpcDestActorFlags at h.at.
#[tactic(auto, unfolding(crate::specs::Headers::both_of))]
pub(crate) fn both_header(s: &[u8], h: Headers) -> Result<Next, Refusal>
    ensures { result ≡ both_of s.now h }
{
    if h.actor.is_some() || h.extra {
        return Err(Refusal::HeaderRepeated);
    }
    if left(s, h.at) < 12 {
        return Err(Refusal::MessageCut);
    }
    with_extra(s, h.at + 12, Some(i64_at(s, h.at + 4)))
}
