// The difference of two clocks.
ghost use Rattle.std.specs.Prelude.{◌≡◌};
ghost use Rattle.opening.specs.Clock.{clock_of, near_of, nonce_clock};

use link_state::Moment;
use wire::u32_at;

// Their time minus ours, where it is from -30 to 30.
#[tactic(auto, unfolding(crate::specs::Clock::clock_of))]
fn difference(theirs: u32, ours: u32) -> Option<i64>
    ensures { result ≡ clock_of theirs ours }
{
    let d = i64::from(theirs) - i64::from(ours);
    if -30 <= d && d <= 30 { Some(d) } else { None }
}

// The clock difference that a Nonce with this body shows.
#[tactic(auto, unfolding(crate::specs::Clock::nonce_clock))]
pub fn clock_difference(b: &[u8], moment: Moment) -> Option<i64>
    ensures { result ≡ nonce_clock b.now moment }
{
    difference(u32_at(b, 8), moment.time)
}

// Whether it is handed back.
#[tactic(auto, unfolding(crate::specs::Clock::near_of))]
pub(crate) fn near(b: &[u8], moment: Moment) -> bool
    ensures { result ≡ near_of b.now moment }
{
    clock_difference(b, moment).is_some()
}
