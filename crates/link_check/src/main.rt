// Conversations of one link at a time, on the records of standard input. A record is an operation (1 byte) and its
// fields: 0, a new link; 1, a receive call on given bytes; 2, a send call with a buffer of given size; 3, a new link
// with all its settings and a key; 5, a flush call with a buffer of given size; 6, whether the link is ciphered. A line
// has the answer, or the refusal's number, and says whether the link is closed after it.
#![tactic(auto)]

mod flushing;
mod receiving;
mod sending;

use check_records::{fill, fill_front, front, refused};
use link_state::{Link, Settings};
use std::io::{self, Read};

// Puts in the link's place one with these settings and this key, or without one if it is empty; the old one stays where
// they are refused; and the line.
fn set_up(out: &impl Print, link: &mut Link, set: Settings, key: &[u8]) -> io::Result<()> {
    let made = if key.is_empty() {
        link_state::set_up(set)
    } else {
        link_state::set_up_with_key(set, key)
    };
    match made {
        Ok(next) => {
            *link = next;
            print!(out; "link")
        }
        Err(refusal) => refused(out, refusal),
    }
}

// Operations 0 and 3: side (1; 1 is a server), whether CRC-32C is allowed (1), lowest version (1), whether it is padded
// (1), whether it offers or takes the cipher (1), and that alone (1), the key's length (2), the key. Of all but the key
// only the first n bytes are there, and what is not there is 0.
fn begin(
    input: &mut impl Read,
    out: &impl Print,
    link: &mut Link,
    n: usize,
    lent: &mut [u8],
) -> io::Result<bool> {
    let mut head = [0u8; 8];
    if !fill_front(input, &mut head, n)? {
        return Ok(false);
    }
    let size = usize::from(wire::u16_at(&head, 6));
    if !fill_front(input, lent, size)? {
        return Ok(false);
    }
    let set = Settings {
        server: head[0] == 1,
        allows: head[1] == 1,
        lowest: head[2],
        padded: head[3] == 1,
        cipher: head[4] == 1,
        only: head[5] == 1,
    };
    set_up(out, link, set, front(lent, size))?;
    Ok(true)
}

// Operation 6.
fn ciphered(out: &impl Print, link: &Link) -> io::Result<bool> {
    print!(out; "{}", if link.ciphered { "cipher" } else { "clear" })?;
    Ok(true)
}

fn operation(
    input: &mut impl Read,
    out: &impl Print,
    op: u8,
    link: &mut Link,
    lent: &mut [u8],
) -> io::Result<bool> {
    match op {
        0 => begin(input, out, link, 2, lent),
        1 => receiving::receive_record(input, out, link, lent),
        2 => sending::send_record(input, out, link, lent),
        3 => begin(input, out, link, 8, lent),
        6 => ciphered(out, link),
        _ => flushing::flush_record(input, out, link),
    }
}

// One record, and its line; false where there is none. The link is lent, and updated where it stands.
fn record(
    input: &mut impl Read,
    out: &impl Print,
    link: &mut Link,
    lent: &mut [u8],
) -> io::Result<bool> {
    let mut op = [0u8; 1];
    if !fill(input, &mut op)? || !operation(input, out, op[0], link, lent)? {
        return Ok(false);
    }
    if link.closed {
        print!(out; " closed")?;
    }
    println!(out)?;
    Ok(true)
}

fn main(rt: HostRuntime) -> io::Result<()> {
    let mut input = rt.reader();
    let mut space = [0u8; 81920];
    let set = Settings {
        server: false,
        allows: false,
        lowest: 0,
        padded: false,
        cipher: false,
        only: false,
    };
    let Ok(mut link) = link_state::set_up(set) else {
        return Ok(());
    };
    for _ in 0..u64::MAX {
        if !record(&mut input, &rt, &mut link, &mut space)? {
            break;
        }
    }
    Ok(())
}
