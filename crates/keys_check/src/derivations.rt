// Kind 2, derivations: version (1), sender (1; 1 is the server), client and server (random 16, time 4, IP 4, port 2
// each), shared bytes (32), the buffer's length (4), the byte that fills it beforehand (1), the key's length (4) and
// the key. The line has size, message, key and vector, or the refusal, and the CRC-32 of the whole buffer.
use check_records::{array, hexadecimal, refused, sum};
use checksum::crc32;
use key_front::{End, Ends};
use key_message::Derivation;
use link_keys::{Derived, derive};
use refusal::Refusal;
use std::io;
use wire::{part, u8_at, u16_at, u32_at};

fn end_of(s: &[u8]) -> End {
    let random = array(part(s, 0, 16));
    End {
        random,
        time: u32_at(s, 16),
        ip: u32_at(s, 20),
        port: u16_at(s, 24),
    }
}

fn answer(out: &impl Print, derived: Result<Derived, Refusal>, buf: &[u8]) -> io::Result<()> {
    match derived {
        Ok(d) => {
            print!(out; "{}", d.size)?;
            hexadecimal(out, part(buf, 0, d.size))?;
            hexadecimal(out, &d.key)?;
            hexadecimal(out, &d.vector)?;
        }
        Err(refusal) => refused(out, refusal)?,
    }
    sum(out, crc32(buf))?;
    println!(out)
}

// The longest buffer.
const MOST: usize = 8192;

fn room(head: &[u8]) -> usize {
    u32_at(head, 86) as usize
}

// Judged before the key is read, so that a record that ends the program keeps it waiting for no more.
pub(crate) fn has_room(head: &[u8]) -> bool {
    room(head) <= MOST
}

pub(crate) fn line(out: &impl Print, head: &[u8], key: &[u8]) -> io::Result<bool> {
    let mut space = [0; MOST];
    let ends = Ends {
        client: end_of(part(head, 2, 26)),
        server: end_of(part(head, 28, 26)),
    };
    let shared = array(part(head, 54, 32));
    let what = Derivation {
        version: u8_at(head, 0),
        server: u8_at(head, 1) == 1,
        ends,
        shared,
    };
    let buf = &mut space[..room(head).min(MOST)];
    buf.fill(u8_at(head, 90));
    let derived = derive(buf, &what, key);
    answer(out, derived, buf)?;
    Ok(true)
}
