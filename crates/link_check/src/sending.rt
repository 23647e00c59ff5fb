// Operation 2: a send call.
use check_records::{array, fill, fill_front, front, refused, sum};
use handshake_in::NetPid;
use link_state::{Link, Moment};
use message_out::Outgoing;
use nonce_out::Drawn;
use refusal::Refusal;
use send::{ToSend, send};
use std::io::{self, Read};

// The message whose fields stand in head from byte 57 on.
fn message_of(head: &[u8]) -> Outgoing {
    let kind = wire::u8_at(head, 57);
    let number = wire::i64_at(head, 58);
    match kind {
        0 => Outgoing::Invoke {
            number,
            actor: (wire::u8_at(head, 66) == 1).then_some(wire::i64_at(head, 67)),
            timeout: (wire::u8_at(head, 75) == 1).then_some(wire::u32_at(head, 76)),
            tl2: wire::u8_at(head, 80) == 1,
        },
        1 => Outgoing::Cancel(number),
        2 => Outgoing::ClientFin,
        3 => Outgoing::ServerFin,
        4 => Outgoing::Payload(number),
        5 => Outgoing::Error {
            number,
            code: wire::i32_at(head, 81),
        },
        _ => Outgoing::Unknown(0),
    }
}

fn pid_of(head: &[u8], at: usize) -> NetPid {
    let rest = wire::part(head, at, 12);
    NetPid {
        ip: wire::u32_at(rest, 0),
        port: wire::u16_at(rest, 4),
        pid: wire::u16_at(rest, 6),
        start: wire::u32_at(rest, 8),
    }
}

fn what_of(head: &[u8]) -> ToSend {
    let kind = wire::u8_at(head, 0);
    match kind {
        0 => ToSend::Nonce,
        1 => ToSend::Handshake {
            sender: pid_of(head, 21),
            peer: pid_of(head, 33),
        },
        2 => ToSend::Ping(wire::u64_at(head, 45)),
        3 => ToSend::Pong,
        _ => ToSend::Message(message_of(head)),
    }
}

// Both checksums, since one over a packet that ends with itself is the same for every packet.
pub(crate) fn print_answer(
    out: &impl Print,
    word: &str,
    answer: Result<usize, Refusal>,
    buffer: &[u8],
) -> io::Result<()> {
    match answer {
        Err(refusal) => refused(out, refusal),
        Ok(size) => {
            print!(out; "{word} {size}")?;
            sum(out, checksum::crc32(buffer))?;
            sum(out, checksum::crc32c(buffer))
        }
    }
}

// The call that head tells, with these bytes as the payload or text; of a Nonce the first 32 are the point.
fn call(link: &mut Link, buffer: &mut [u8], head: &[u8], payload: &[u8]) -> Result<usize, Refusal> {
    let random = array(wire::part(head, 5, 16));
    let point = array(front(payload, 32));
    let moment = Moment {
        time: wire::u32_at(head, 1),
    };
    let drawn = Drawn { random, point };
    send(link, buffer, payload, what_of(head), drawn, moment)
}

// The call on a buffer of as many bytes as head tells, and its line. A function of its own: in one that may return before
// it has the buffer, the buffer would be cleared first.
fn call_and_print(
    out: &impl Print,
    link: &mut Link,
    head: &[u8],
    payload: &[u8],
) -> io::Result<()> {
    let mut space = [0xa5u8; 81920];
    let buffer: &mut [u8] = &mut space;
    let room = (wire::u32_at(head, 53) as usize).min(buffer.len());
    let answer = call(link, &mut buffer[..room], head, payload);
    print_answer(out, "sent", answer, front(buffer, room))
}

// Kind (1), time (4), random (16), own NetPID (12), peer's (12), Ping's ID (8), room (4), the fields of a message (28), n (4),
// n bytes.
pub(crate) fn send_record(
    input: &mut impl Read,
    out: &impl Print,
    link: &mut Link,
    lent: &mut [u8],
) -> io::Result<bool> {
    let mut head = [0u8; 89];
    if !fill(input, &mut head)? {
        return Ok(false);
    }
    let n = wire::u32_at(&head, 85) as usize;
    if !fill_front(input, lent, n)? {
        return Ok(false);
    }
    call_and_print(out, link, &head, front(lent, n))?;
    Ok(true)
}
