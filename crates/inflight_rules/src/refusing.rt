// The rules by which an ask is refused, in their order.
ghost use Rattle.std.specs.Prelude.{◌≡◌, ◌<◌};
ghost use Rattle.inflight.specs.Tables.{check_load, check_ask_of};

use crate::capacity::capacity_taken;
use inflight::{FrontNumber, Table};
use inflight_fronts::find_front;
use inflight_slots::count;
use inflight_times::no_time;
use refusal::Refusal;

// 32 and 33 by the rules.
fn check_load(masks: &[u64; 9], publisher: u8) -> Result<(), Refusal>
    requires { publisher < 8 }
    ensures { result ≡ check_load masks.now publisher }
{
    let p = publisher as usize;
    let load = count(masks[1 + p]);
    if 16 <= load {
        return Err(Refusal::LoadAtLimit);
    }
    if load < 4 {
        return Ok(());
    }
    if capacity_taken(masks) == 64 {
        return Err(Refusal::CapacityGone);
    }
    Ok(())
}

// Whether the rules accept an ask.
pub fn check_ask(
    table: &Table,
    link: u8,
    number: FrontNumber,
    publisher: u8,
    time: u64,
) -> Result<(), Refusal>
    ensures { result ≡ check_ask_of table.now link number publisher time }
{
    if 32 <= link {
        return Err(Refusal::OutOfRange);
    }
    if 8 <= publisher {
        return Err(Refusal::OutOfRange);
    }
    if no_time(time) {
        return Err(Refusal::OutOfRange);
    }
    if number == FrontNumber(0) {
        return Err(Refusal::NumberZero);
    }
    if find_front(table.masks[0], &table.numbers, &table.places, link, number) != 64 {
        return Err(Refusal::InFlightAlready);
    }
    check_load(&table.masks, publisher)
}
