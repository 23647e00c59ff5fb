// Records.

ghost use Rattle.std.specs.Prelude.{◌≡◌, ◌≢◌, ◌<◌, IfErr, false, length, replicate, take};
ghost use Rattle.std.specs.IoError.{error_kind};
ghost use Rattle.std.specs.declared.io.ErrorKind.TheVariants.{UnexpectedEof};
ghost use Rattle.std.proofs.lemmas.List.Edits.{sets};

use std::io::{self, ErrorKind, Read};
use store_bytes::copy;

// Fills the buffer; false where the input ends before, which is no error.
pub fn fill(input: &mut impl Read, buf: &mut [u8]) -> io::Result<bool>
    ensures { IfErr result (λ e. error_kind e ≢ UnexpectedEof) }
{
    match input.read_exact(buf) {
        Ok(()) => Ok(true),
        Err(e) if e.kind() == ErrorKind::UnexpectedEof => Ok(false),
        Err(e) => Err(e),
    }
}

// Fills the first n bytes of the space; false where it has not so many, and then nothing is read, or the input ends
// before.
pub fn fill_front(input: &mut impl Read, space: &mut [u8], n: usize) -> io::Result<bool>
    ensures { length space.old < n → (result ≡ Ok false) × (space.new ≡ space.old) }
{
    if space.len() < n {
        return Ok(false);
    }
    fill(input, &mut space[..n])
}

// The first n bytes of the space, or all of it.
pub fn front<'a>(space: &'a [u8], n: usize) -> &'a [u8]
    ensures { result.now ≡ take n space.now }
{
    &space[..n.min(space.len())]
}

// The first N bytes, with zeros for those that are not there.
pub fn array<const N: usize>(s: &[u8]) -> [u8; N]
    ensures { result ≡ sets (replicate N 0) 0 s.now }
{
    let mut a = [0; N];
    copy(&mut a, 0, s);
    a
}

// Runs the step on one record after another, until it finds none or an error ends it.
// Kept: it takes any closure, so it asks that the closure can be called. The programs have the loop themselves.
pub fn each_record<F: FnMut() -> io::Result<bool>>(mut step: F) -> io::Result<()>
    requires { F.IsAlwaysCallable step }
    ensures { IfErr result (λ e. (before after : F) × F.step before (Err e) after) }
{
    for _ in 0..u64::MAX {
        if !step()? {
            break;
        }
    }
    Ok(())
}

#[cfg(test)]
mod tests {
    use super::*;

    #[test]
    fn each_record_ends_at_none_or_an_error(rt: HostRuntime) {
        let mut n = 0u8;
        let ended = each_record(|| {
            n = n.wrapping_add(1);
            Ok(n < 3)
        });
        assert!(rt; ended.is_ok());
        assert_eq!(rt; n, 3);
        let mut n = 0u8;
        let ended = each_record(|| {
            n = n.wrapping_add(1);
            if n < 2 {
                Ok(true)
            } else {
                Err(io::Error::from(ErrorKind::InvalidData))
            }
        });
        assert_eq!(rt; n, 2);
        match ended {
            Ok(()) => assert!(rt; false, "no error"),
            Err(e) => assert!(rt; e.kind() == ErrorKind::InvalidData, "another error"),
        }
    }
}
