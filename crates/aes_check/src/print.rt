// A buffer on standard output.
use check_records::{hexadecimal, sum};
use checksum::{crc32, crc32c};
use std::io;

// The most bytes that are written out.
const MOST: usize = 64;

// Its bytes, or both checksums where they are many.
pub(crate) fn contents(out: &impl Print, s: &[u8]) -> io::Result<()> {
    if s.len() <= MOST {
        hexadecimal(out, s)
    } else {
        sum(out, crc32(s))?;
        sum(out, crc32c(s))
    }
}
