// A part of a lent slice.
ghost use Rattle.std.specs.Prelude.{◌≡◌};
ghost use Rattle.wire.specs.Bytes.{within};

// The len bytes from at on, or none where the slice does not have them all.
pub fn part<'a>(s: &'a [u8], at: usize, len: usize) -> &'a [u8]
    ensures { result.now ≡ within s.now at len }
{
    if at <= s.len() {
        if len <= s.len() - at {
            &s[at..at + len]
        } else {
            &s[..0]
        }
    } else {
        &s[..0]
    }
}
