// Reads and stores of numbers at any offset, on the records of standard input: n (1 byte), an offset (8), a value (8) and n
// bytes. A line has the five numbers read there, and the n bytes after each of six stores.
#![tactic(auto)]

use check_records::fill;
use std::io::{self, Read};

fn print_bytes(out: &impl Print, s: &[u8]) -> io::Result<()> {
    if s.is_empty() {
        print!(out; "-")?;
    }
    for b in s {
        print!(out; "{b:02x}")?;
    }
    Ok(())
}

// Each number has a space behind it.
fn print_reads(out: &impl Print, s: &[u8], at: usize) -> io::Result<()> {
    print!(out; "{} ", wire::u16_at(s, at))?;
    print!(out; "{} ", wire::u32_at(s, at))?;
    print!(out; "{} ", wire::u64_at(s, at))?;
    print!(out; "{} ", wire::i32_at(s, at))?;
    print!(out; "{} ", wire::i64_at(s, at))
}

// The bytes s after a store.
fn print_stored<F: FnOnce(&mut [u8])>(out: &impl Print, s: &[u8], store: F) -> io::Result<()>
    requires { F.IsAlwaysCallable store }
{
    let mut space = [0u8; 32];
    store_bytes::copy(&mut space, 0, s);
    let d = &mut space[..s.len().min(32)];
    store(d);
    print_bytes(out, d)
}

fn print_line(out: &impl Print, s: &[u8], at: usize, value: u64) -> io::Result<()> {
    let mut bytes = [0u8; 8];
    store::put_u64(&mut bytes, 0, value);
    let some = &bytes[..(value % 9) as usize];
    print_reads(out, s, at)?;
    print_stored(out, s, |d| store::put_u16(d, at, (value % 65536) as u16))?;
    print!(out; " ")?;
    print_stored(
        out,
        s,
        |d| store::put_u32(d, at, (value % 4294967296) as u32),
    )?;
    print!(out; " ")?;
    print_stored(out, s, |d| store::put_u64(d, at, value))?;
    print!(out; " ")?;
    print_stored(
        out,
        s,
        |d| store_signed::put_i32(d, at, wire::i32_at(&bytes, 0)),
    )?;
    print!(out; " ")?;
    print_stored(
        out,
        s,
        |d| store_signed::put_i64(d, at, wire::i64_at(&bytes, 0)),
    )?;
    print!(out; " ")?;
    print_stored(out, s, |d| store_bytes::copy(d, at, some))?;
    print!(out; "\n")
}

// Reads a record and prints its line; false at the end.
fn record(input: &mut impl Read, out: &impl Print) -> io::Result<bool> {
    let mut head = [0u8; 17];
    if !fill(input, &mut head)? {
        return Ok(false);
    }
    let n = usize::from(head[0]);
    let at = wire::u64_at(&head, 1) as usize;
    let value = wire::u64_at(&head, 9);
    let mut space = [0u8; 32];
    let Some(bytes) = space.get_mut(..n) else {
        return Ok(false);
    };
    if !fill(input, bytes)? {
        return Ok(false);
    }
    print_line(out, bytes, at, value)?;
    Ok(true)
}

fn main(rt: HostRuntime) -> io::Result<()> {
    let mut input = rt.reader();
    for _ in 0..u64::MAX {
        if !record(&mut input, &rt)? {
            break;
        }
    }
    Ok(())
}
