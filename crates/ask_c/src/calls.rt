// A fresh table, and ask.
ghost use Rattle.std.specs.Prelude.{◌≡◌};
ghost use Rattle.inflight.specs.Tables.{fresh_of, ask_of};
ghost use Rattle.ask_c.specs.AskFields.{started_refusal, ask_fields};

use crate::RelayAsked;
use inflight::{FrontNumber, PublisherNumber, Table};
use refusal::Refusal;

// The answers as numbers.
// Kept: 0 for none, since the C interface answers a number.
fn started_refusal(a: Result<(), Refusal>) -> u8
    ensures { result ≡ started_refusal a }
{
    match a {
        Ok(()) => 0,
        Err(refusal) => u8::from(refusal),
    }
}

#[tactic(auto, unfolding(crate::specs::AskFields::ask_fields))]
fn ask_fields(a: Result<PublisherNumber, Refusal>) -> RelayAsked
    ensures { result ≡ ask_fields a }
{
    match a {
        Ok(number) => RelayAsked { refusal: 0, number },
        Err(refusal) => RelayAsked {
            refusal: u8::from(refusal),
            number: PublisherNumber(0),
        },
    }
}

// A table starts at a first publisher number: a refusal's number, or 0. `places`, `order` and the
// deadlines of slots stay in any case.
#[unsafe(no_mangle)]
pub extern "C" fn relay_table_fresh(table: &mut Table, first: PublisherNumber) -> u8
    ensures { (result ≡ started_refusal (fresh_of table.old first).answer)
        × (table.new ≡ (fresh_of table.old first).table) }
{
    let a = inflight::fresh(table, first);
    started_refusal(a)
}

// Ask (link, number, publisher), at a time in ms and with a timeout, both 0 for an ask without: accepted with a
// publisher number, or refused.
#[unsafe(no_mangle)]
pub extern "C" fn relay_table_ask(
    table: &mut Table,
    link: u8,
    number: FrontNumber,
    publisher: u8,
    time: u64,
    timeout: u32,
) -> RelayAsked
    ensures { (result ≡ ask_fields (ask_of table.old link number publisher time timeout).answer)
        × (table.new ≡ (ask_of table.old link number publisher time timeout).table) }
{
    let a = inflight_ask::ask(table, link, number, publisher, time, timeout);
    ask_fields(a)
}
