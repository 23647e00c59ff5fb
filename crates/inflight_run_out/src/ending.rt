// Run out: the refusals in their order, and the slots whose deadline has come.
ghost use Rattle.std.specs.Prelude.{◌≡◌};
ghost use Rattle.inflight.specs.Tables.{run_out_of};

use inflight::Table;
use inflight_drop::drop_slots;
use inflight_slots::find_due;
use inflight_times::{latest, no_time};
use refusal::Refusal;

// Frees all requests whose deadline is at or before the latest time seen, the call's own among them, and writes link
// and front number of each. Where requests were freed, or none had to be, the time is seen.
pub fn run_out(table: &mut Table, time: u64, out: &mut [i64]) -> Result<usize, Refusal>
    ensures { (result ≡ (run_out_of table.old time out.old).answer)
        × (table.new ≡ (run_out_of table.old time out.old).table)
        × (out.new ≡ (run_out_of table.old time out.old).slice) }
{
    if no_time(time) {
        return Err(Refusal::OutOfRange);
    }
    let seen = latest(&table.times, time);
    let mask = find_due(table.masks[0], &table.times, seen);
    let count = drop_slots(table, mask, false, out)?;
    table.times[64] = seen;
    Ok(count)
}
