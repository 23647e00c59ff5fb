// The calls that free many requests, of a table whose members lie apart. The core has one struct, so each call copies
// them in, and out what it changes. Where no times are lent any do, and ones are no call of memset, as zeros would be.
// Kept: arrays side by side, since these C names have had these prototypes all along.
ghost use Rattle.std.specs.Prelude.{◌≡◌, List, ℕ};
ghost use Rattle.inflight.specs.Tables.{table_of, gone_of, run_out_of};
ghost use Rattle.drops_c.specs.DropFields.{peer_of, drop_fields};

use crate::RelayDropped;
use crate::drops::{relay_table_gone, relay_table_run_out};
use copy_words::copy;
use inflight::Table;

// A peer is gone: frees all its requests and writes the other end of each, link and front number for a publisher that
// was lost, publisher and publisher number for a front link that closed. Whatever the times ts are, it neither reads
// nor changes them.
#[unsafe(no_mangle)]
pub extern "C" fn relay_gone_lent(
    masks: &mut [u64; 9],
    numbers: &[i64; 136],
    places: &[u8; 128],
    order: &mut [u8; 64],
    publisher: bool,
    number: u8,
    out: &mut [i64],
) -> RelayDropped
    ensures { (ts : List ℕ) → (result ≡ drop_fields (gone_of
        (table_of masks.old numbers.now places.now order.old ts)
        (peer_of publisher number) out.old).answer)
        × (table_of masks.new numbers.now places.now order.new ts ≡ (gone_of
        (table_of masks.old numbers.now places.now order.old ts)
        (peer_of publisher number) out.old).table)
        × (out.new ≡ (gone_of (table_of masks.old numbers.now places.now
        order.old ts) (peer_of publisher number) out.old).slice) }
{
    let mut table = Table {
        masks: *masks,
        numbers: [1; 136],
        places: *places,
        order: *order,
        times: [1; 65],
    };
    copy(&mut table.numbers, numbers);
    let a = relay_table_gone(&mut table, publisher, number, out);
    *masks = table.masks;
    *order = table.order;
    a
}

// Frees all requests whose deadline is at or before the latest time seen, the call's own among them, and writes link
// and front number of each.
#[unsafe(no_mangle)]
pub extern "C" fn relay_run_out_lent(
    masks: &mut [u64; 9],
    numbers: &[i64; 136],
    places: &[u8; 128],
    order: &mut [u8; 64],
    times: &mut [u64; 65],
    time: u64,
    out: &mut [i64],
) -> RelayDropped
    ensures { (result ≡ drop_fields (run_out_of
        (table_of masks.old numbers.now places.now order.old
        times.old) time out.old).answer)
        × (table_of masks.new numbers.now places.now order.new
        times.new ≡ (run_out_of
        (table_of masks.old numbers.now places.now order.old
        times.old) time out.old).table)
        × (out.new ≡ (run_out_of (table_of masks.old numbers.now places.now
        order.old times.old) time out.old).slice) }
{
    let mut table = Table {
        masks: *masks,
        numbers: [1; 136],
        places: *places,
        order: *order,
        times: [1; 65],
    };
    copy(&mut table.numbers, numbers);
    copy(&mut table.times, times);
    let a = relay_table_run_out(&mut table, time, out);
    *masks = table.masks;
    *order = table.order;
    copy(times, &table.times);
    a
}
