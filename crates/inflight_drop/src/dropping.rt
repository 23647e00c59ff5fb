// Many requests at once: where the slice is long enough, their other ends are written and the slots freed.
ghost use Rattle.std.specs.Prelude.{◌≡◌, ◌≤◌};
ghost use Rattle.inflight.specs.Tables.{ends_at, drop_of};

use crate::ends::{count_leaving, write_ends};
use inflight::Table;
use inflight_free::strike;
use inflight_slots::{count, lay_out};
use refusal::Refusal;

// Where the ends of some requests stand in numbers and places: at their publishers, or else at their links.
fn ends_at(publishers: bool) -> usize
    ensures { (result ≡ ends_at publishers) × (result ≤ 64) }
{
    if publishers { 64 } else { 0 }
}

// The requests in the slots of a mask are freed, and their ends written, publisher and publisher number or else link
// and front number, if the slice has two numbers for each.
pub fn drop_slots(
    table: &mut Table,
    mask: u64,
    publishers: bool,
    out: &mut [i64],
) -> Result<usize, Refusal>
    ensures { (result ≡ (drop_of table.old mask (ends_at publishers) out.old).answer)
        × (table.new ≡ (drop_of table.old mask (ends_at publishers) out.old).table)
        × (out.new ≡ (drop_of table.old mask (ends_at publishers) out.old).slice) }
{
    let used = table.masks[0];
    let n = count(used);
    let mut line = [0u8; 64];
    lay_out(used, &table.order, &mut line);
    let k = count_leaving(&line[..n], mask);
    if out.len() < 2 * k {
        return Err(Refusal::BufferTooSmall);
    }
    let base = ends_at(publishers);
    write_ends(&table.numbers, &table.places, &line[..n], mask, base, out);
    strike(table, &line, mask);
    Ok(k)
}
