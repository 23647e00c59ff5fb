// Masks without some slots, and the places of the others in the order of acceptance.
ghost use Rattle.std.specs.Prelude.{◌≡◌, map, ◌^◌, ◌%◌, ◌≤◌, take};
ghost use Rattle.std.specs.Int.Count.{ones};
ghost use Rattle.inflight.specs.Masks.{outside, closed_up, placed_anew};
ghost use Rattle.inflight.specs.Tables.{cut_all, freed, struck_from, used};

use inflight::Table;
use inflight_slots::{bit, count, holds};

// The place of a slot after place a is free: those behind it come one forward.
fn closed_up(a: u8, x: u8) -> u8
    ensures { result ≡ closed_up a x }
{
    if a < x { x - 1 } else { x }
}

// Every slot's place after place a is free, whether the slot is used or not: one pass that the compiler makes 16 bytes
// wide.
fn close_up(order: &mut [u8; 64], a: u8)
    ensures { order.new ≡ map (closed_up a) order.old }
{
    for x in order.iter_mut() {
        *x = closed_up(a, *x);
    }
}

// The first n slots of a line, without those of a mask, take their places anew.
fn place_anew(order: &mut [u8; 64], line: &[u8; 64], n: usize, mask: u64)
    requires { n ≤ 64 }
    ensures { order.new
        ≡ placed_anew (outside mask (take n line.now)) 0 order.old }
{
    let mut k: u8 = 0;
    for &x in line[..n].iter() {
        if !holds(mask, x) {
            order[(x % 64) as usize] = k;
            k += 1;
        }
    }
}

// Every mask without the slots of one.
fn cut_all(masks: &mut [u64; 9], mask: u64)
    ensures { masks.new ≡ cut_all mask masks.old }
{
    for m in masks.iter_mut() {
        *m &= !mask;
    }
}

// One slot is freed.
pub fn free(table: &mut Table, s: usize)
    ensures { table.new ≡ freed table.old (s % 64) }
{
    let a = table.order[s % 64];
    close_up(&mut table.order, a);
    cut_all(&mut table.masks, bit(s));
}

// The slots of a mask are freed. Of the first bytes of a line, as many as slots are used, those that stay take their
// places anew. The line is the caller's: the used slots by their places, laid out to list those that leave.
pub fn strike(table: &mut Table, line: &[u8; 64], mask: u64)
    ensures { table.new ≡ struck_from table.old (take (ones (used table.old)) line.now) mask }
{
    let n = count(table.masks[0]);
    place_anew(&mut table.order, line, n, mask);
    cut_all(&mut table.masks, mask);
}
