// One header, or the payload's beginning.
ghost use Rattle.std.specs.Prelude.{◌≡◌};
ghost use Rattle.invoke_headers.specs.Headers.{next_of};

use crate::fields::{actor_header, both_header, flags_header};
use crate::{Headers, Next};
use header::{Kind, Side, kind_of};
use refusal::Refusal;
use wire::{left, u32_at};

// What stands at h.at, after what the headers before it said.
#[tactic(auto, unfolding(crate::specs::Headers::next_of))]
pub fn next_header(s: &[u8], h: Headers) -> Result<Next, Refusal>
    ensures { result ≡ next_of s.now h }
{
    if left(s, h.at) < 4 {
        return Ok(Next::Done(h));
    }
    match kind_of(Side::Server, u32_at(s, h.at)) {
        Kind::Flags => flags_header(s, h),
        Kind::Actor => actor_header(s, h),
        Kind::ActorFlags => both_header(s, h),
        Kind::Diagonal => Err(Refusal::HeaderNotCarried),
        Kind::Marker => Ok(Next::Done(Headers {
            at: h.at + 4,
            tl2: true,
            ..h
        })),
        _ => Ok(Next::Done(h)),
    }
}
