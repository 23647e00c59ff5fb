// Fresh and ask of a table whose members lie apart. The core has one struct, so each call copies them in, and out what
// it changes. What is copied by words is ones before, since zeros would be a call of memset.
// Kept: arrays side by side, since these C names have had these prototypes all along.
ghost use Rattle.std.specs.Prelude.{◌≡◌};
ghost use Rattle.inflight.specs.Tables.{table_of, fresh_answer, fresh_masks, fresh_numbers, fresh_times, ask_of};
ghost use Rattle.ask_c.specs.AskFields.{started_refusal, ask_fields};

use crate::RelayAsked;
use crate::calls::{relay_table_ask, relay_table_fresh};
use copy_words::copy;
use inflight::{FrontNumber, PublisherNumber, Table};

// A table starts at a first publisher number: a refusal's number, or 0. `places` and `order` are not lent, and the
// deadlines of slots stay in any case.
#[unsafe(no_mangle)]
pub extern "C" fn relay_fresh_lent(
    masks: &mut [u64; 9],
    numbers: &mut [i64; 136],
    times: &mut [u64; 65],
    first: PublisherNumber,
) -> u8
    ensures { (result ≡ started_refusal (fresh_answer first))
        × (masks.new ≡ fresh_masks first masks.old)
        × (numbers.new ≡ fresh_numbers first numbers.old)
        × (times.new ≡ fresh_times first times.old) }
{
    let mut table = Table {
        masks: *masks,
        numbers: [1; 136],
        places: [0; 128],
        order: [0; 64],
        times: [1; 65],
    };
    copy(&mut table.numbers, numbers);
    copy(&mut table.times, times);
    let a = relay_table_fresh(&mut table, first);
    *masks = table.masks;
    copy(numbers, &table.numbers);
    copy(times, &table.times);
    a
}

// Ask (link, number, publisher), at a time in ms and with a timeout, both 0 for an ask without: accepted with a
// publisher number, or refused.
#[unsafe(no_mangle)]
pub extern "C" fn relay_ask_lent(
    masks: &mut [u64; 9],
    numbers: &mut [i64; 136],
    places: &mut [u8; 128],
    order: &mut [u8; 64],
    times: &mut [u64; 65],
    link: u8,
    number: FrontNumber,
    publisher: u8,
    time: u64,
    timeout: u32,
) -> RelayAsked
    ensures { (result ≡ ask_fields (ask_of
        (table_of masks.old numbers.old places.old
        order.old times.old) link number publisher time timeout).answer)
        × (table_of masks.new numbers.new places.new order.new
        times.new ≡ (ask_of
        (table_of masks.old numbers.old places.old
        order.old times.old) link number publisher time timeout).table) }
{
    let mut table = Table {
        masks: *masks,
        numbers: [1; 136],
        places: *places,
        order: *order,
        times: [1; 65],
    };
    copy(&mut table.numbers, numbers);
    copy(&mut table.times, times);
    let a = relay_table_ask(&mut table, link, number, publisher, time, timeout);
    *masks = table.masks;
    copy(numbers, &table.numbers);
    *places = table.places;
    *order = table.order;
    copy(times, &table.times);
    a
}
