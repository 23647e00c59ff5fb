// The checksum's register for long inputs: four registers over interleaved words of eight bytes, each stepped by tables
// of whole bytes (slicing by 8), so that the processor need not wait for one sum before it starts the next.
//
// A table has 8 KiB, which a long input pays for, and is lent where it stands; short inputs, and the end of a long one,
// go by `crc_short`. The call here is `sliced`.
#![tactic(auto)]

mod castagnoli;
mod ieee;
mod table;

ghost use Rattle.std.specs.Prelude.{◌≡◌};
ghost use Rattle.crc.specs.Crc.{reflected, feeds};

use crate::table::Table;
use crc::Polynomial;

// The register c after the bytes of s.
pub fn sliced(kind: Polynomial, c: u32, s: &[u8]) -> u32
    ensures { result ≡ feeds (reflected kind) c s.now }
{
    let (lanes, rest) = Table::of(kind).blocks(c, s);
    crc_short::joined(kind, lanes, rest)
}
