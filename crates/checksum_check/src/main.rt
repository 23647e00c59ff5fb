// Both checksums of the inputs on standard input, at once and in two parts. A record is a length n (4 bytes), where the
// first part ends (4 bytes), and n bytes; its line is n and the four sums. First, and proved: the published values.
#![tactic(auto)]

use check_records::{fill, sum};
use std::io::{self, Read};

// The longest input that a record may have.
const MOST: usize = 32768;

// Of s, whole and in two parts at k.
fn print_sums(out: &impl Print, s: &[u8], k: usize) -> io::Result<()> {
    let (front, back) = s.split_at(k.min(s.len()));
    print!(out; "{}", s.len())?;
    sum(out, checksum::crc32(s))?;
    sum(out, checksum::crc32_update(checksum::crc32(front), back))?;
    sum(out, checksum::crc32c(s))?;
    sum(out, checksum::crc32c_update(checksum::crc32c(front), back))?;
    print!(out; "\n")
}

// Reads a record and prints its line; false at the end.
fn record(input: &mut impl Read, out: &impl Print) -> io::Result<bool> {
    let mut head = [0u8; 8];
    if !fill(input, &mut head)? {
        return Ok(false);
    }
    let n = wire::u32_at(&head, 0) as usize;
    let k = wire::u32_at(&head, 4) as usize;
    let mut space = [0u8; MOST];
    let Some(bytes) = space.get_mut(..n) else {
        return Ok(false);
    };
    if !fill(input, bytes)? {
        return Ok(false);
    }
    print_sums(out, bytes, k)?;
    Ok(true)
}

fn main(rt: HostRuntime) -> io::Result<()> {
    let ieee = checksum::crc32(b"123456789");
    prove!(ieee == 0xcbf4_3926);
    let castagnoli = checksum::crc32c(b"123456789");
    prove!(castagnoli == 0xe306_9283);
    let mut input = rt.reader();
    for _ in 0..u64::MAX {
        if !record(&mut input, &rt)? {
            break;
        }
    }
    Ok(())
}
