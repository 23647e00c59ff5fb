// Messages read and written, on the records of standard input. A record is an operation (1 byte) and its fields: 0, read a
// body by side and type; 1, write a message into a buffer of given size. A line has the meaning, or the size and the CRC-32
// of the whole buffer afterwards, or the refusal's number.
#![tactic(auto)]

mod print;

use check_records::{fill, fill_front, front};
use header::Side;
use invoke::Invoke;
use message::Message;
use refusal::Refusal;
use result::{Answer, Reply};
use std::io::{self, Read};

// A body's bytes, and a buffer's: a record has at most 80,000 of either.
const MOST: usize = 81920;

fn print_place(out: &impl Print, at: usize, len: usize) -> io::Result<()> {
    println!(out; " {at} {len}")
}

fn print_invoke(out: &impl Print, i: Invoke) -> io::Result<()> {
    print!(out; "invoke {} ", i.number)?;
    print::or_dash(out, i.actor)?;
    print!(out; " ")?;
    print::or_dash(out, i.timeout)?;
    print!(out; " {}", u8::from(i.tl2))?;
    print_place(out, i.at, i.len)
}

fn print_reply(out: &impl Print, r: Reply) -> io::Result<()> {
    print!(out; "result {}", r.number)?;
    match r.answer {
        Answer::Payload { at, len } => {
            print!(out; " payload")?;
            print_place(out, at, len)
        }
        Answer::Error { code, at, len } => {
            print!(out; " error {code}")?;
            print_place(out, at, len)
        }
    }
}

fn refused_line(out: &impl Print, refusal: Refusal) -> io::Result<()> {
    println!(out; "no {}", u8::from(refusal))
}

fn print_read(out: &impl Print, read: Result<Message, Refusal>) -> io::Result<()> {
    match read {
        Ok(Message::Invoke(i)) => print_invoke(out, i),
        Ok(Message::Cancel(number)) => println!(out; "cancel {number}"),
        Ok(Message::ClientFin) => println!(out; "client_fin"),
        Ok(Message::Result(r)) => print_reply(out, r),
        Ok(Message::ServerFin) => println!(out; "server_fin"),
        Err(refusal) => refused_line(out, refusal),
    }
}

// Operation 0: side (1), type (4), n (4), n bytes.
fn read(input: &mut impl Read, out: &impl Print, space: &mut [u8]) -> io::Result<bool> {
    let mut head = [0u8; 9];
    if !fill(input, &mut head)? {
        return Ok(false);
    }
    let tag = wire::u32_at(&head, 1);
    let n = wire::u32_at(&head, 5) as usize;
    if !fill_front(input, space, n)? {
        return Ok(false);
    }
    let side = if head[0] == 0 {
        Side::Server
    } else {
        Side::Client
    };
    print_read(out, message::read_message(side, tag, front(space, n)))?;
    Ok(true)
}

// The message whose fields are head, with these bytes as its payload or text, into d.
fn write_kind(d: &mut [u8], head: &[u8], s: &[u8]) -> Result<usize, Refusal> {
    let number = wire::i64_at(head, 1);
    match wire::u8_at(head, 0) {
        0 => {
            let actor = (wire::u8_at(head, 9) != 0).then_some(wire::i64_at(head, 10));
            let timeout = (wire::u8_at(head, 18) != 0).then_some(wire::u32_at(head, 19));
            let tl2 = wire::u8_at(head, 23) != 0;
            invoke_out::write_invoke(d, number, actor, timeout, tl2, s)
        }
        1 => cancel_out::write_cancel(d, number),
        2 | 3 => cancel_out::write_fin(d),
        4 => result_out::write_payload(d, number, s),
        _ => result_out::write_error(d, number, wire::i32_at(head, 24), s),
    }
}

fn print_written(out: &impl Print, written: Result<usize, Refusal>, d: &[u8]) -> io::Result<()> {
    match written {
        Ok(size) => println!(out; "size {size} {:08x}", checksum::crc32(d)),
        Err(refusal) => refused_line(out, refusal),
    }
}

// Operation 1: kind (1), number (8), actor given (1), actor (8), timeout given (1), timeout (4), TL2 (1), code (4), room (4),
// n (4), n bytes.
fn write(input: &mut impl Read, out: &impl Print, space: &mut [u8]) -> io::Result<bool> {
    let mut head = [0u8; 36];
    if !fill(input, &mut head)? {
        return Ok(false);
    }
    let n = wire::u32_at(&head, 32) as usize;
    if !fill_front(input, space, n)? {
        return Ok(false);
    }
    let mut lent = [0xa5u8; MOST];
    let room = (wire::u32_at(&head, 28) as usize).min(lent.len());
    let written = write_kind(&mut lent[..room], &head, front(space, n));
    print_written(out, written, &lent[..room])?;
    Ok(true)
}

// One record; false at the end.
fn record(input: &mut impl Read, out: &impl Print, space: &mut [u8]) -> io::Result<bool> {
    let mut op = [0u8; 1];
    if !fill(input, &mut op)? {
        return Ok(false);
    }
    if op[0] == 0 {
        read(input, out, space)
    } else {
        write(input, out, space)
    }
}

fn main(rt: HostRuntime) -> io::Result<()> {
    let mut input = rt.reader();
    let mut space = [0u8; MOST];
    let body: &mut [u8] = &mut space;
    for _ in 0..u64::MAX {
        if !record(&mut input, &rt, body)? {
            break;
        }
    }
    Ok(())
}
