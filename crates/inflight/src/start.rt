// A fresh table.
ghost use Rattle.std.specs.Prelude.{◌≡◌};
ghost use Rattle.inflight.specs.Tables.{fresh_of};

use super::{PublisherNumber, Table};
use refusal::Refusal;

// A table starts at a first publisher number; one below 1 is refused, and the table stays. `places`, `order` and the
// deadlines of slots stay in any case.
pub fn fresh(table: &mut Table, first: PublisherNumber) -> Result<(), Refusal>
    ensures { (result ≡ (fresh_of table.old first).answer)
        × (table.new ≡ (fresh_of table.old first).table) }
{
    if first.0 < 1 {
        return Err(Refusal::OutOfRange);
    }
    table.masks.fill(0);
    table.numbers[128..].fill(first.0);
    table.times[64] = 0;
    Ok(())
}
