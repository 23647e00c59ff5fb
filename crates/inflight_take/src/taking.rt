// Reply and cancel: the refusals in their order, and the slot freed where it is found.
ghost use Rattle.std.specs.Prelude.{◌≡◌};
ghost use Rattle.inflight.specs.Tables.{reply_of, cancel_of};

use inflight::{FrontEnd, FrontNumber, PublisherEnd, PublisherNumber, Table};
use inflight_free::free;
use inflight_fronts::find_front;
use inflight_slots::find_number;
use refusal::Refusal;

// Reply (publisher, number): hands back link and front number, and frees the request.
pub fn reply(table: &mut Table, publisher: u8, number: PublisherNumber) -> Result<FrontEnd, Refusal>
    ensures { (result ≡ (reply_of table.old publisher number).answer)
        × (table.new ≡ (reply_of table.old publisher number).table) }
{
    if 8 <= publisher {
        return Err(Refusal::OutOfRange);
    }
    if number == PublisherNumber(0) {
        return Err(Refusal::NumberZero);
    }
    let p = publisher as usize;
    let s = find_number(table.masks[1 + p], &table.numbers, number);
    if 64 <= s {
        return Err(Refusal::NoSuchRequest);
    }
    let link = table.places[s];
    let number = FrontNumber(table.numbers[s]);
    free(table, s);
    Ok(FrontEnd { link, number })
}

// Cancel (link, number): hands back publisher and publisher number, and frees the request.
pub fn cancel(table: &mut Table, link: u8, number: FrontNumber) -> Result<PublisherEnd, Refusal>
    ensures { (result ≡ (cancel_of table.old link number).answer)
        × (table.new ≡ (cancel_of table.old link number).table) }
{
    if 32 <= link {
        return Err(Refusal::OutOfRange);
    }
    if number == FrontNumber(0) {
        return Err(Refusal::NumberZero);
    }
    let s = find_front(table.masks[0], &table.numbers, &table.places, link, number);
    if 64 <= s {
        return Err(Refusal::NoSuchRequest);
    }
    let publisher = table.places[64 + s];
    let number = PublisherNumber(table.numbers[64 + s]);
    free(table, s);
    Ok(PublisherEnd { publisher, number })
}
