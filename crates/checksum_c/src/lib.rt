// The checksums for C: each exported function wraps one call of the crate `checksum` and has that call's contract.
//
// A slice passes as a pointer and a length. Nothing here computes anything: what a checksum is, is said by the crate
// `crc`. include/relay.h declares the functions for C, bindings/rust for Rust.
//
// Kept: two functions for each polynomial, since the C interface has them.
#![tactic(auto)]

ghost use Rattle.std.specs.Prelude.{◌≡◌};
ghost use Rattle.crc.specs.Crc.{reflected, crc, update};
ghost use Rattle.crc.specs.declared.Polynomial.TheVariants.{Ieee, Castagnoli};

// CRC-32 of s.
#[unsafe(no_mangle)]
pub extern "C" fn relay_crc32(s: &[u8]) -> u32
    ensures { result ≡ crc (reflected Ieee) s.now }
{
    checksum::crc32(s)
}

// CRC-32C of s.
#[unsafe(no_mangle)]
pub extern "C" fn relay_crc32c(s: &[u8]) -> u32
    ensures { result ≡ crc (reflected Castagnoli) s.now }
{
    checksum::crc32c(s)
}

// CRC-32 of some bytes followed by s, where previous is that of those bytes.
#[unsafe(no_mangle)]
pub extern "C" fn relay_crc32_update(previous: u32, s: &[u8]) -> u32
    ensures { result ≡ update (reflected Ieee) previous s.now }
{
    checksum::crc32_update(previous, s)
}

// CRC-32C of some bytes followed by s, where previous is that of those bytes.
#[unsafe(no_mangle)]
pub extern "C" fn relay_crc32c_update(previous: u32, s: &[u8]) -> u32
    ensures { result ≡ update (reflected Castagnoli) previous s.now }
{
    checksum::crc32c_update(previous, s)
}
