// Ask: the rules of refusal in their order, and a request more in the lowest free slot where none applies.
ghost use Rattle.std.specs.Prelude.{◌≡◌};
ghost use Rattle.inflight.specs.Tables.{ask_of};

use inflight::{FrontNumber, PublisherNumber, Table};
use inflight_rules::{check_ask, free_number, step};
use inflight_slots::{bit, count, lowest_free};
use inflight_times::set_deadline;
use refusal::Refusal;

// Ask (link, number, publisher), at a time in ms and with a timeout: accepted with a publisher number, or refused. The
// timeout 0 is none; an ask with time 0 and timeout 0 is one without either.
pub fn ask(
    table: &mut Table,
    link: u8,
    number: FrontNumber,
    publisher: u8,
    time: u64,
    timeout: u32,
) -> Result<PublisherNumber, Refusal>
    ensures { (result ≡ (ask_of table.old link number publisher time timeout).answer)
        × (table.new ≡ (ask_of table.old link number publisher time timeout).table) }
{
    check_ask(table, link, number, publisher, time)?;
    let used = table.masks[0];
    let s = lowest_free(used);
    if 64 <= s {
        return Err(Refusal::CapacityGone);
    }
    let n = count(used);
    let p = publisher as usize;
    let mine = table.masks[1 + p];
    let from = PublisherNumber(table.numbers[128 + p]);
    let given = free_number(mine, &table.numbers, n, from);
    let next = step(given);
    table.numbers[s] = number.0;
    table.numbers[64 + s] = given.0;
    table.numbers[128 + p] = next.0;
    table.places[s] = link;
    table.places[64 + s] = publisher;
    table.order[s] = n as u8;
    set_deadline(&mut table.times, s, time, timeout);
    let b = bit(s);
    table.masks[0] = used | b;
    table.masks[1 + p] = mine | b;
    Ok(given)
}
