// Operation 1: a receive call.
use check_records::{fill, fill_front, front, refused};
use link_state::{Link, Moment};
use packet::{Arrival, NONCE};
use refusal::Refusal;
use std::io::{self, Read};

// Of a Nonce, the clock difference that its body gives too.
fn print_answer(
    out: &impl Print,
    answer: Result<Arrival, Refusal>,
    s: &[u8],
    moment: Moment,
) -> io::Result<()> {
    match answer {
        Ok(Arrival::Incomplete(more)) => print!(out; "wait {more}"),
        Ok(
            Arrival::Packet {
                kind,
                consumed,
                at,
                len,
            },
        ) => {
            print!(out; "packet {kind:08x} {consumed} {at} {len}")?;
            if kind == NONCE
                && let Some(difference) = opening::clock_difference(
                    packet::body(s, answer),
                    moment,
                )
            {
                print!(out; " clock {difference}")?;
            }
            Ok(())
        }
        Err(refusal) => refused(out, refusal),
    }
}

// Our time (4), n (4), n bytes.
pub(crate) fn receive_record(
    input: &mut impl Read,
    out: &impl Print,
    link: &mut Link,
    lent: &mut [u8],
) -> io::Result<bool> {
    let mut head = [0u8; 8];
    if !fill(input, &mut head)? {
        return Ok(false);
    }
    let moment = Moment {
        time: wire::u32_at(&head, 0),
    };
    let n = wire::u32_at(&head, 4) as usize;
    if !fill_front(input, lent, n)? {
        return Ok(false);
    }
    let s = front(lent, n);
    let answer = link::receive(link, s, moment);
    print_answer(out, answer, s, moment)?;
    Ok(true)
}
