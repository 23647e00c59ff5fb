// Times below 2^62, and deadlines from them.
ghost use Rattle.std.specs.Prelude.{◌≡◌, ◌%◌, ◌<◌};
ghost use Rattle.inflight.specs.Model.{no_time, deadline_at};
ghost use Rattle.inflight.specs.Tables.{latest_of, timed_of};

// Whether a time is out of range: 2^62 or more.
pub fn no_time(time: u64) -> bool
    ensures { result ≡ no_time time }
{
    4611686018427387904 <= time
}

// The latest time seen, a call's own among them. A clock that went back changes nothing; contents past the range, which
// no call makes, count as the largest time, so that a deadline always fits.
pub fn latest(times: &[u64; 65], time: u64) -> u64
    ensures { (result ≡ latest_of times.now time) × (result < 4611686018427387904) }
{
    let mut last = times[64];
    if last < time {
        last = time;
    }
    if last < 4611686018427387904 {
        return last;
    }
    4611686018427387903
}

// The latest time seen plus a timeout; 0, for none, without one.
fn deadline(seen: u64, timeout: u32) -> u64
    requires { seen < 4611686018427387904 }
    ensures { result ≡ deadline_at seen timeout }
{
    if timeout == 0 {
        return 0;
    }
    seen + timeout as u64
}

// A slot's deadline is set, and the time is seen: what an accepted ask with a time and a timeout leaves.
pub fn set_deadline(times: &mut [u64; 65], slot: usize, time: u64, timeout: u32)
    ensures { times.new ≡ timed_of times.old (slot % 64) time timeout }
{
    let seen = latest(times, time);
    times[slot % 64] = deadline(seen, timeout);
    times[64] = seen;
}
