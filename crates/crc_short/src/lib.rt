// The checksum's register for short inputs: by half bytes, eight bytes a turn and then one, over either polynomial by its
// table of 1 KiB.
//
// `half_bytes` steps one register over a slice; `joined` ends what `crc_sliced` began with four. A table is lent where it
// stands, and no call copies it.
#![tactic(auto)]

mod entries;
mod table;

ghost use Rattle.std.specs.Prelude.{◌≡◌};
ghost use Rattle.crc.specs.Crc.{reflected, feeds};
ghost use Rattle.crc.specs.Interleaved.{merged};

use crate::table::Table;
use crc::{Lanes, Polynomial};

// The register c after the bytes of s.
pub fn half_bytes(kind: Polynomial, c: u32, s: &[u8]) -> u32
    ensures { result ≡ feeds (reflected kind) c s.now }
{
    Table::of(kind).run(c, s)
}

// Four registers after the bytes of s, as one.
pub fn joined(kind: Polynomial, r: Lanes, s: &[u8]) -> u32
    ensures { result ≡ merged (reflected kind) r s.now }
{
    Table::of(kind).joined(r, s)
}
