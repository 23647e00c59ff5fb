// Reply and cancel of a table whose members lie apart. The core has one struct, so each call copies them in, and out
// what it changes: masks and order. No times are lent, and any do: ones, since zeros would be a call of memset.
// Kept: arrays side by side, since these C names have had these prototypes all along.
ghost use Rattle.std.specs.Prelude.{◌≡◌, List, ℕ};
ghost use Rattle.inflight.specs.Tables.{table_of, reply_of, cancel_of};
ghost use Rattle.take_c.specs.TakeFields.{reply_fields, cancel_fields};

use crate::calls::{relay_table_cancel, relay_table_reply};
use crate::{RelayCancelled, RelayReplied};
use copy_words::copy;
use inflight::{FrontNumber, PublisherNumber, Table};

// Reply (publisher, number): hands back link and front number, and frees the request, whatever the
// times ts are.
#[unsafe(no_mangle)]
pub extern "C" fn relay_reply_lent(
    masks: &mut [u64; 9],
    numbers: &[i64; 136],
    places: &[u8; 128],
    order: &mut [u8; 64],
    publisher: u8,
    number: PublisherNumber,
) -> RelayReplied
    ensures { (ts : List ℕ) → (result ≡ reply_fields (reply_of
        (table_of masks.old numbers.now places.now
        order.old ts) publisher number).answer)
        × (table_of masks.new numbers.now places.now order.new ts ≡ (reply_of
        (table_of masks.old numbers.now places.now
        order.old ts) publisher number).table) }
{
    let mut table = Table {
        masks: *masks,
        numbers: [1; 136],
        places: *places,
        order: *order,
        times: [1; 65],
    };
    copy(&mut table.numbers, numbers);
    let a = relay_table_reply(&mut table, publisher, number);
    *masks = table.masks;
    *order = table.order;
    a
}

// Cancel (link, number): hands back publisher and publisher number, and frees the request, whatever the
// times ts are.
#[unsafe(no_mangle)]
pub extern "C" fn relay_cancel_lent(
    masks: &mut [u64; 9],
    numbers: &[i64; 136],
    places: &[u8; 128],
    order: &mut [u8; 64],
    link: u8,
    number: FrontNumber,
) -> RelayCancelled
    ensures { (ts : List ℕ) → (result ≡ cancel_fields (cancel_of
        (table_of masks.old numbers.now places.now
        order.old ts) link number).answer)
        × (table_of masks.new numbers.now places.now order.new ts ≡ (cancel_of
        (table_of masks.old numbers.now places.now
        order.old ts) link number).table) }
{
    let mut table = Table {
        masks: *masks,
        numbers: [1; 136],
        places: *places,
        order: *order,
        times: [1; 65],
    };
    copy(&mut table.numbers, numbers);
    let a = relay_table_cancel(&mut table, link, number);
    *masks = table.masks;
    *order = table.order;
    a
}
