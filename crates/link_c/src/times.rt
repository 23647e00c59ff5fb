// The clock difference of a Nonce.
ghost use Rattle.std.specs.Prelude.{◌≡◌};
ghost use Rattle.opening.specs.Clock.{nonce_clock};
ghost use Rattle.link_c.specs.ClockFields.{clock_fields};

use crate::RelayClock;
use link_state::Moment;
use opening::clock_difference;

impl From<Option<i64>> for RelayClock {
    ghost from_gives = { λ answer fields. fields ≡ clock_fields answer };

    #[tactic(auto, unfolding(crate::specs::ClockFields::clock_fields))]
    fn from(answer: Option<i64>) -> RelayClock {
        match answer {
            Some(d) => RelayClock {
                near: true,
                difference: d,
            },
            None => RelayClock {
                near: false,
                difference: 0,
            },
        }
    }
}

// The clock difference that a Nonce with this body shows.
#[unsafe(no_mangle)]
pub extern "C" fn relay_clock_difference(body: &[u8], moment: Moment) -> RelayClock
    ensures { result ≡ clock_fields (nonce_clock body.now moment) }
{
    RelayClock::from(clock_difference(body, moment))
}
