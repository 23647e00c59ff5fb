// Digests, derivations, set-ups with a key and the fields of Nonces, for the records on standard input. A record is a
// kind (1 byte) and its fields; its line has the answer, or `no` and the refusal's number. What exceeds the buffers of
// this program ends it.
#![tactic(auto)]

mod derivations;
mod digests;
mod nonces;
mod set_ups;

use check_records::{fill, fill_front, front};
use std::io::{self, Read};
use wire::u32_at;

// Reads the rest of a record, as many bytes as its head says at a place, and has its line printed; false at the end.
fn counted<F: Fn(&[u8], &[u8]) -> io::Result<bool>>(
    input: &mut impl Read,
    head: &[u8],
    at: usize,
    line: F,
) -> io::Result<bool>
    requires { F.IsAlwaysCallable line }
{
    let n = u32_at(head, at) as usize;
    let mut space = [0; 8192];
    if !fill_front(input, &mut space, n)? {
        return Ok(false);
    }
    line(head, front(&space, n))
}

// Reads a record and prints its line; false at the end.
fn record(input: &mut impl Read, out: &impl Print) -> io::Result<bool> {
    let mut kind = [0; 1];
    if !fill(input, &mut kind)? {
        return Ok(false);
    }
    match kind[0] {
        1 => {
            let mut head = [0; 4];
            if !fill(input, &mut head)? {
                return Ok(false);
            }
            counted(input, &head, 0, |_, s| digests::line(out, s))
        }
        2 => {
            let mut head = [0; 95];
            if !fill(input, &mut head)? || !derivations::has_room(&head) {
                return Ok(false);
            }
            counted(
                input,
                &head,
                91,
                |head, key| derivations::line(out, head, key),
            )
        }
        3 => {
            let mut head = [0; 8];
            if !fill(input, &mut head)? {
                return Ok(false);
            }
            counted(input, &head, 4, |head, key| set_ups::line(out, head, key))
        }
        4 => {
            let mut head = [0; 4];
            if !fill(input, &mut head)? {
                return Ok(false);
            }
            counted(input, &head, 0, |_, body| nonces::line(out, body))
        }
        _ => Ok(false),
    }
}

fn main(rt: HostRuntime) -> io::Result<()> {
    let mut input = rt.reader();
    for _ in 0..u64::MAX {
        if !record(&mut input, &rt)? {
            break;
        }
    }
    Ok(())
}
