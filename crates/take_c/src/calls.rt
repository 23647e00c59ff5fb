// Reply and cancel.
ghost use Rattle.std.specs.Prelude.{◌≡◌};
ghost use Rattle.inflight.specs.Tables.{reply_of, cancel_of};
ghost use Rattle.take_c.specs.TakeFields.{reply_fields, cancel_fields};

use crate::{RelayCancelled, RelayReplied};
use inflight::{FrontEnd, FrontNumber, PublisherEnd, PublisherNumber, Table};
use refusal::Refusal;

// The answers as numbers.
#[tactic(auto, unfolding(crate::specs::TakeFields::reply_fields))]
fn reply_fields(a: Result<FrontEnd, Refusal>) -> RelayReplied
    ensures { result ≡ reply_fields a }
{
    match a {
        Ok(end) => RelayReplied {
            refusal: 0,
            link: end.link,
            number: end.number,
        },
        Err(refusal) => RelayReplied {
            refusal: u8::from(refusal),
            link: 0,
            number: FrontNumber(0),
        },
    }
}

#[tactic(auto, unfolding(crate::specs::TakeFields::cancel_fields))]
fn cancel_fields(a: Result<PublisherEnd, Refusal>) -> RelayCancelled
    ensures { result ≡ cancel_fields a }
{
    match a {
        Ok(end) => RelayCancelled {
            refusal: 0,
            publisher: end.publisher,
            number: end.number,
        },
        Err(refusal) => RelayCancelled {
            refusal: u8::from(refusal),
            publisher: 0,
            number: PublisherNumber(0),
        },
    }
}

// Reply (publisher, number): hands back link and front number, and frees the request.
#[unsafe(no_mangle)]
pub extern "C" fn relay_table_reply(
    table: &mut Table,
    publisher: u8,
    number: PublisherNumber,
) -> RelayReplied
    ensures { (result ≡ reply_fields (reply_of table.old publisher number).answer)
        × (table.new ≡ (reply_of table.old publisher number).table) }
{
    let a = inflight_take::reply(table, publisher, number);
    reply_fields(a)
}

// Cancel (link, number): hands back publisher and publisher number, and frees the request.
#[unsafe(no_mangle)]
pub extern "C" fn relay_table_cancel(
    table: &mut Table,
    link: u8,
    number: FrontNumber,
) -> RelayCancelled
    ensures { (result ≡ cancel_fields (cancel_of table.old link number).answer)
        × (table.new ≡ (cancel_of table.old link number).table) }
{
    let a = inflight_take::cancel(table, link, number);
    cancel_fields(a)
}
