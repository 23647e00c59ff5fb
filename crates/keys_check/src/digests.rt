// Kind 1, digests: a length (4) and so many bytes. The line has the length and both digests.
use check_records::hexadecimal;
use std::io;

pub(crate) fn line(out: &impl Print, s: &[u8]) -> io::Result<bool> {
    print!(out; "{}", s.len())?;
    hexadecimal(out, &md5_hash::md5(s))?;
    hexadecimal(out, &sha1_hash::sha1(s))?;
    println!(out)?;
    Ok(true)
}
