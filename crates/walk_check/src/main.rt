// Runs of the relay walk on fresh tables. A run on standard input is a first number N (8 bytes, signed), a size m
// (4 bytes) and m bytes of events. It prints `run N`, then `no 30` where N is below 1, else the lines of the walk over
// these events on a table that starts at N.
#![tactic(auto)]

use check_records::fill;
use inflight::{PublisherNumber, Table};
use std::io::{self, Read};

// The lines of all events, as many as the buffer has room for at a time.
fn print_walk(
    table: &mut Table,
    events: &[u8],
    text: &mut [u8],
    out: &impl Print,
) -> io::Result<()> {
    let mut at: usize = 0;
    for _ in 0..events.len() {
        let from = at.min(events.len());
        let r = walk::walk(table, &events[from..], text, true);
        let written = r.written.min(text.len());
        out.write_all(&text[0..written])?;
        let used = r.consumed.min(events.len() - from);
        if r.stopped || used == 0 {
            break;
        }
        at = from + used;
    }
    Ok(())
}

// Reads a run and prints its lines; false at the end.
fn run(
    input: &mut impl Read,
    events: &mut [u8],
    text: &mut [u8],
    out: &impl Print,
) -> io::Result<bool> {
    let mut head = [0u8; 12];
    if !fill(input, &mut head)? {
        return Ok(false);
    }
    let m = (wire::u32_at(&head, 8) as usize).min(events.len());
    if !fill(input, &mut events[0..m])? {
        return Ok(false);
    }
    let first = wire::i64_at(&head, 0);
    println!(out; "run {first}")?;
    let mut table = Table {
        masks: [0; 9],
        numbers: [0; 136],
        places: [0; 128],
        order: [0; 64],
        times: [0; 65],
    };
    match inflight::fresh(&mut table, PublisherNumber(first)) {
        Err(refusal) => println!(out; "no {}", u8::from(refusal))?,
        Ok(()) => print_walk(&mut table, &events[0..m], text, out)?,
    }
    Ok(true)
}

fn main(rt: HostRuntime) -> io::Result<()> {
    let mut in_space = [0u8; 65536];
    let events: &mut [u8] = &mut in_space;
    let mut text_space = [0u8; 65536];
    let text: &mut [u8] = &mut text_space;
    let mut input = rt.reader();
    for _ in 0..u64::MAX {
        if !run(&mut input, events, text, &rt)? {
            break;
        }
    }
    Ok(())
}
