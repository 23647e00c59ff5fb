// The start, and whether there is more to come.
ghost use Rattle.std.specs.Prelude.{◌≡◌, not, ◌&&◌, ◌||◌, eqb, ltb};
ghost use Rattle.walk_progress.specs.Start.{start_of};

use crate::Progress;

// Nothing waiting, and more to come.
#[tactic(auto, unfolding(crate::specs::Start::start_of))]
pub fn start() -> Progress
    ensures { result ≡ start_of }
{
    Progress {
        have: 0,
        ended: false,
        more: true,
    }
}

// Whether the events have ended: they had, or a read brought nothing. A read that had no room tells nothing.
pub fn no_more(ended: bool, have: usize, room: usize, count: usize) -> bool
    ensures { result ≡ (ended || (ltb have room && eqb count 0)) }
{
    ended || (have < room && count == 0)
}

// Whether there is a next step: not after a write that failed, nor once the walk stopped, nor once all is consumed.
pub fn goes_on(written: bool, stopped: bool, last: bool, left: usize) -> bool
    ensures { result ≡ (written && not (stopped || (last && eqb left 0))) }
{
    written && !(stopped || (last && left == 0))
}
