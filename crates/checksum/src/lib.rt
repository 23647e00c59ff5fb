// The checksums of packets: CRC-32 and CRC-32C of a slice, or continued over one more slice from an earlier value.
//
// Both are the bitwise definition over their polynomial (crc/specs/Crc.antt), whatever way computes them: short inputs
// go by half bytes, long ones by 16 bytes at a time. Nothing is kept between calls.
#![tactic(auto)]

ghost use Rattle.std.specs.Prelude.{◌≡◌};
ghost use Rattle.crc.specs.Crc.{reflected, crc, feeds, update};
ghost use Rattle.crc.specs.declared.Polynomial.TheVariants.{Ieee, Castagnoli};

use crc::Polynomial;

// From this length on the large table pays.
const LONG: usize = 256;

fn fed(kind: Polynomial, c: u32, s: &[u8]) -> u32
    ensures { result ≡ feeds (reflected kind) c s.now }
{
    if s.len() < LONG {
        crc_short::half_bytes(kind, c, s)
    } else {
        crc_sliced::sliced(kind, c, s)
    }
}

// The checksum of some bytes followed by s, where previous is that of those bytes, and 0 of none.
fn continued(kind: Polynomial, previous: u32, s: &[u8]) -> u32
    ensures { result ≡ update (reflected kind) previous s.now }
{
    fed(kind, previous ^ 0xffff_ffff, s) ^ 0xffff_ffff
}

// Kept: a function for each polynomial, since the C interface calls them by these names, all over `continued`.

// CRC-32 of s.
pub fn crc32(s: &[u8]) -> u32
    ensures { result ≡ crc (reflected Ieee) s.now }
{
    continued(Polynomial::Ieee, 0, s)
}

// CRC-32C of s.
pub fn crc32c(s: &[u8]) -> u32
    ensures { result ≡ crc (reflected Castagnoli) s.now }
{
    continued(Polynomial::Castagnoli, 0, s)
}

// CRC-32 of some bytes followed by s, where previous is that of those bytes.
pub fn crc32_update(previous: u32, s: &[u8]) -> u32
    ensures { result ≡ update (reflected Ieee) previous s.now }
{
    continued(Polynomial::Ieee, previous, s)
}

// CRC-32C of some bytes followed by s, where previous is that of those bytes.
pub fn crc32c_update(previous: u32, s: &[u8]) -> u32
    ensures { result ≡ update (reflected Castagnoli) previous s.now }
{
    continued(Polynomial::Castagnoli, previous, s)
}
