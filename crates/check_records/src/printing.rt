// Text.

use refusal::Refusal;
use std::io;

// A refusal, without the end of its line.
pub fn refused(out: &impl Print, refusal: Refusal) -> io::Result<()> {
    print!(out; "no {}", u8::from(refusal))
}

// A space and two hexadecimal digits for each byte.
pub fn hexadecimal(out: &impl Print, s: &[u8]) -> io::Result<()> {
    print!(out; " ")?;
    for b in s {
        print!(out; "{b:02x}")?;
    }
    Ok(())
}

// A space and a checksum.
pub fn sum(out: &impl Print, n: u32) -> io::Result<()> {
    print!(out; " {n:08x}")
}
