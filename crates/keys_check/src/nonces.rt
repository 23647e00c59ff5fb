// Kind 4, Nonces: a length (4) and a body of so many bytes. The line has version, time, random bytes and point, or `-`
// where there is none.
use check_records::{hexadecimal, refused};
use nonce_in::{NonceFields, Place, nonce_fields};
use std::io;
use wire::part;

fn held(out: &impl Print, body: &[u8], p: Place) -> io::Result<()> {
    if p.len == 0 {
        print!(out; " -")
    } else {
        hexadecimal(out, part(body, p.at, p.len))
    }
}

fn fields(out: &impl Print, body: &[u8], f: NonceFields) -> io::Result<()> {
    print!(out; "{} {}", f.version, f.time)?;
    held(out, body, f.random)?;
    held(out, body, f.point)
}

pub(crate) fn line(out: &impl Print, body: &[u8]) -> io::Result<bool> {
    match nonce_fields(body) {
        Ok(f) => fields(out, body, f)?,
        Err(refusal) => refused(out, refusal)?,
    }
    println!(out)?;
    Ok(true)
}
