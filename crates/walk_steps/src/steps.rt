// One step of the walk, and the loop of steps.
ghost use Rattle.walk_steps.specs.Step.{Stepped};

use crate::moves::{fill, move_front};
use inflight::{PublisherNumber, Table};
use std::io::{Read, Write};
use walk_progress::{Progress, goes_on, no_more, start};

// One read, one walk, one write; what was not consumed moves to the front. A write that fails is the last, so that
// nothing is printed past a gap.
pub fn step(
    table: &mut Table,
    p: Progress,
    events: &mut [u8],
    out: &mut [u8],
    input: &mut impl Read,
    output: &mut impl Write,
) -> Progress
    ensures { Stepped table.old p events.old out.old table.new result events.new out.new }
{
    let from = p.have.min(events.len());
    let end = fill(input, events, from, p.ended);
    let count = end - from;
    let last = no_more(p.ended, from, events.len(), count);
    let r = walk::walk(table, &events[0..end], out, last);
    let size = r.written;
    let written = output.write_all(&out[0..size]).is_ok();
    let used = r.consumed;
    move_front(events, used, end);
    let left = end - used;
    Progress {
        have: left,
        ended: last,
        more: goes_on(written, r.stopped, last, left),
    }
}

// Steps until there is no next one, on a table that it keeps and starts at 1. It has no answer, and what it reads and
// writes is the world's, so there is nothing to promise; its proof passes on from step to step that they are a run
// (specs/Runs.antt).
pub fn run(input: &mut impl Read, output: &mut impl Write) {
    let mut table = Table {
        masks: [0; 9],
        numbers: [0; 136],
        places: [0; 128],
        order: [0; 64],
        times: [0; 65],
    };
    inflight::fresh(&mut table, PublisherNumber(1)).unwrap();
    let mut in_space = [0u8; 65536];
    let events: &mut [u8] = &mut in_space;
    let mut out_space = [0u8; 65536];
    let out: &mut [u8] = &mut out_space;
    let mut p = start();
    for _ in 0..u64::MAX {
        let q = step(&mut table, p, events, out, input, output);
        if !q.more {
            return;
        }
        p = q;
    }
}
