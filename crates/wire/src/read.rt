// Reads. A number is spelled by its bytes, so one law serves all widths.
ghost use Rattle.std.specs.Prelude.{◌≡◌, ◌-◌, ◌<◌, length};
ghost use Rattle.std.specs.Int.{w32, w64};
ghost use Rattle.std.proofs.Common.{to_z};
ghost use Rattle.wire.specs.Bytes.{le, part};

// How many bytes there are from at on.
pub fn left(s: &[u8], at: usize) -> usize
    ensures { result ≡ length s.now - at }
{
    s.len().saturating_sub(at)
}

pub fn u8_at(s: &[u8], at: usize) -> u8
    ensures { result ≡ le (part s.now at 1) }
{
    s.get(at).copied().unwrap_or(0)
}

// The N bytes from at on, where they are not all there: a missing byte is 0.
#[cold]
fn padded_at<const N: usize>(s: &[u8], at: usize) -> [u8; N]
    requires { length s.now - at < N }
    ensures { le result ≡ le (part s.now at N) }
{
    let rest = &s[at.min(s.len())..];
    let mut found = [0; N];
    found[..rest.len()].copy_from_slice(rest);
    found
}

// The N bytes from at on, a missing byte as 0. Where all are there the compiler makes one load of them.
fn bytes_at<const N: usize>(s: &[u8], at: usize) -> [u8; N]
    requires { 0 < N }
    ensures { le result ≡ le (part s.now at N) }
{
    if left(s, at) < N {
        return padded_at(s, at);
    }
    *s[at..at + N].first_chunk().unwrap()
}

pub fn u16_at(s: &[u8], at: usize) -> u16
    ensures { result ≡ le (part s.now at 2) }
{
    u16::from_le_bytes(bytes_at(s, at))
}

pub fn u32_at(s: &[u8], at: usize) -> u32
    ensures { result ≡ le (part s.now at 4) }
{
    u32::from_le_bytes(bytes_at(s, at))
}

pub fn u64_at(s: &[u8], at: usize) -> u64
    ensures { result ≡ le (part s.now at 8) }
{
    u64::from_le_bytes(bytes_at(s, at))
}

pub fn i32_at(s: &[u8], at: usize) -> i32
    ensures { result ≡ to_z w32 (le (part s.now at 4)) }
{
    u32_at(s, at).cast_signed()
}

pub fn i64_at(s: &[u8], at: usize) -> i64
    ensures { result ≡ to_z w64 (le (part s.now at 8)) }
{
    u64_at(s, at).cast_signed()
}
