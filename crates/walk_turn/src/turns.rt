// One event: the call that it names, and the lines that tell the answer.
ghost use Rattle.std.specs.Prelude.{◌≡◌, ◌≤◌, length, Result, Ok};
ghost use Rattle.std.proofs.lemmas.List.Edits.{sets};
ghost use Rattle.walk_turn.specs.Lines.{count_of, dropped_lines, gone_word};
ghost use Rattle.walk_turn.specs.Turn.{Turned, turn_of, lines_of};
ghost use Rattle.walk_turn.specs.Wrote.{Wrote, Turns};

use super::lines::Lines;
use super::{Event, NoEvent};
use inflight::{FrontNumber, Peer, PublisherNumber, Table};
use inflight_ask::ask;
use inflight_gone::gone;
use inflight_run_out::run_out;
use inflight_take::{cancel, reply};
use refusal::Refusal;

// Kept: a function for each call; they differ in the call, the type of its answer and the line, and one that is handed
// these is no plainer.
fn ask_turn(
    table: &mut Table,
    link: u8,
    number: FrontNumber,
    publisher: u8,
    time: u64,
    timeout: u32,
    lines: &mut Lines<'_>,
)
    requires { lines.old.size ≡ 0 }
    ensures { Turns table.old table.new (Ok (Event.AskBy link number publisher time timeout))
        lines.old lines.new }
{
    match ask(table, link, number, publisher, time, timeout) {
        Ok(given) => lines.line(b"ask ", given.0),
        Err(refusal) => lines.refused(refusal),
    }
}

fn reply_turn(table: &mut Table, publisher: u8, number: PublisherNumber, lines: &mut Lines<'_>)
    requires { lines.old.size ≡ 0 }
    ensures { Turns table.old table.new (Ok (Event.Reply publisher number)) lines.old lines.new }
{
    match reply(table, publisher, number) {
        Ok(end) => lines.pair(b"reply ", i64::from(end.link), end.number.0),
        Err(refusal) => lines.refused(refusal),
    }
}

fn cancel_turn(table: &mut Table, link: u8, number: FrontNumber, lines: &mut Lines<'_>)
    requires { lines.old.size ≡ 0 }
    ensures { Turns table.old table.new (Ok (Event.Cancel link number)) lines.old lines.new }
{
    match cancel(table, link, number) {
        Ok(end) => lines.pair(b"cancel ", i64::from(end.publisher), end.number.0),
        Err(refusal) => lines.refused(refusal),
    }
}

// The lines of requests that were freed: the count, then the other end of each.
fn dropped(lines: &mut Lines<'_>, word: &[u8], answer: Result<usize, Refusal>, ends: &[i64])
    requires { (lines.old.size ≡ 0) × (length word.now ≤ 8) × (count_of answer ≤ 64) }
    ensures { Wrote lines.old lines.new (dropped_lines word.now answer ends.now) }
{
    match answer {
        Ok(n) => {
            lines.line(word, n as i64);
            lines.drops(ends, n);
        }
        Err(refusal) => lines.refused(refusal),
    }
}

// The word of a peer that is gone, with its space.
fn gone_word(peer: Peer) -> &'static [u8]
    ensures { result.now ≡ gone_word peer }
{
    match peer {
        Peer::Front(_) => b"closed ",
        Peer::Publisher(_) => b"lost ",
    }
}

fn gone_turn(table: &mut Table, peer: Peer, lines: &mut Lines<'_>)
    requires { lines.old.size ≡ 0 }
    ensures { Turns table.old table.new (Ok (Event.Gone peer)) lines.old lines.new }
{
    let mut ends = [0i64; 128];
    let answer = gone(table, peer, &mut ends);
    dropped(lines, gone_word(peer), answer, &ends);
}

fn run_out_turn(table: &mut Table, time: u64, lines: &mut Lines<'_>)
    requires { lines.old.size ≡ 0 }
    ensures { Turns table.old table.new (Ok (Event.RunOut time)) lines.old lines.new }
{
    let mut ends = [0i64; 128];
    let answer = run_out(table, time, &mut ends);
    dropped(lines, b"out ", answer, &ends);
}

fn event_turn(table: &mut Table, event: Event, lines: &mut Lines<'_>)
    requires { lines.old.size ≡ 0 }
    ensures { Turns table.old table.new (Ok event) lines.old lines.new }
{
    match event {
        Event::Ask(l, n, p) => ask_turn(table, l, n, p, 0, 0, lines),
        Event::Reply(p, n) => reply_turn(table, p, n, lines),
        Event::Cancel(l, n) => cancel_turn(table, l, n, lines),
        Event::Gone(peer) => gone_turn(table, peer, lines),
        Event::AskBy(l, n, p, t, d) => ask_turn(table, l, n, p, t, d, lines),
        Event::RunOut(t) => run_out_turn(table, t, lines),
    }
}

fn lines_turn(table: &mut Table, e: Result<Event, NoEvent>, lines: &mut Lines<'_>)
    requires { lines.old.size ≡ 0 }
    ensures { Turns table.old table.new e lines.old lines.new }
{
    match e {
        Ok(event) => event_turn(table, event, lines),
        Err(_) => lines.refused(Refusal::EventUnknownOrCut),
    }
}

// The table after an event, and its lines at the front of text: their size is handed back.
pub fn turn(table: &mut Table, e: Result<Event, NoEvent>, text: &mut [u8]) -> usize
    ensures { (◌≡◌ {A = Turned} (record { table = table.new; size = result }) (turn_of table.old e))
        × (text.new ≡ sets text.old 0 (lines_of table.old e)) }
{
    let mut lines = Lines::new(text);
    lines_turn(table, e, &mut lines);
    lines.size
}
