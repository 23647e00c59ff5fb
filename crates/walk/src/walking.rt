// The walk over a slice of events, into a slice of text.
ghost use Rattle.std.specs.Prelude.{◌≡◌, length, ◌≤◌};
ghost use Rattle.walk.specs.Walk.{walk_of, Told};

use super::Walked;
use inflight::Table;
use store_bytes::copy;
use walk_events::{event, must_wait, record_size};
use walk_turn::turn;
use wire::left;

// Room for the lines of one event, which are never longer: at most 64 requests are dropped, and a line has at most 49
// bytes.
fn scratch() -> [u8; 4096]
    ensures { 4096 ≡ length result }
{
    [0; 4096]
}

// The walk, with room for the lines of one event.
fn walk_with(
    table: &mut Table,
    events: &[u8],
    out: &mut [u8],
    last: bool,
    text: &mut [u8],
) -> Walked
    requires { 4096 ≤ length text.old }
    ensures { Told (walk_of table.old events.now (length out.old) last) out.old table.new result out.new }
{
    let mut at: usize = 0;
    let mut to: usize = 0;
    for _ in 0..events.len() {
        let e = event(&events[at..]);
        if must_wait(e, last) {
            break;
        }
        if left(out, to) < 4096 {
            break;
        }
        let n = turn(table, e, text);
        copy(out, to, &text[..n]);
        to += n;
        let Some(size) = record_size(e) else {
            return Walked {
                consumed: at,
                written: to,
                stopped: true,
            };
        };
        at += size;
    }
    Walked {
        consumed: at,
        written: to,
        stopped: false,
    }
}

// Whole events are read from the front of `events`, and their lines written to the front of `out`, while there is one
// and 4,096 bytes of room, which the lines of any event fit. A cut record at the end waits for more bytes, unless these
// are the last.
pub fn walk(table: &mut Table, events: &[u8], out: &mut [u8], last: bool) -> Walked
    ensures { Told (walk_of table.old events.now (length out.old) last) out.old table.new result out.new }
{
    let mut space = scratch();
    walk_with(table, events, out, last, &mut space)
}
