// A polynomial with its table of whole bytes, and the steps of four registers by it.
ghost use Rattle.std.specs.Prelude.{◌≡◌, ◌+◌, ◌*◌, ◌≤◌, ◌<◌};
ghost use Rattle.std.specs.Int.Bits.{bit_xor};
ghost use Rattle.wire.specs.Bytes.{le, part};
ghost use Rattle.crc.specs.Crc.{reflected, clocks, feeds};
ghost use Rattle.crc.specs.Interleaved.{merged};
ghost use Rattle.crc_sliced.specs.Slices.{Slices};

use crate::{castagnoli, ieee};
use crc::{Lanes, Polynomial};

#[derive(Clone, Copy)]
pub(crate) struct Table {
    kind: Polynomial,
    entries: &'static [u32; 2048],
    ghost right: { Slices (reflected kind) entries.now },
}

impl Table {
    pub(crate) fn of(kind: Polynomial) -> Table
        ensures { result.kind ≡ kind }
    {
        match kind {
            Polynomial::Ieee => Table {
                kind: Polynomial::Ieee,
                entries: &ieee::TABLE,
            },
            Polynomial::Castagnoli => Table {
                kind: Polynomial::Castagnoli,
                entries: &castagnoli::TABLE,
            },
        }
    }

    // What 8 (k + 25) bits make of a byte.
    fn look(self, k: usize, x: u8) -> u32
        requires { k < 8 }
        ensures { result ≡ clocks (reflected self.kind) (8 * (k + 25)) x }
    {
        self.entries[k * 256 + usize::from(x)]
    }

    // What 8 (k + 28) bits make of four bytes, taken out of a number.
    fn word(self, k: usize, w: u32) -> u32
        requires { k + 4 ≤ 8 }
        ensures { result ≡ clocks (reflected self.kind) (8 * (k + 28)) w }
    {
        let [a, b, c, d] = w.to_le_bytes();
        self.look(k, d) ^ self.look(k + 1, c) ^ self.look(k + 2, b) ^ self.look(k + 3, a)
    }

    // The same of four bytes of w, each loaded by itself: the processor has loads to spare, and fewer steps to make.
    fn four(self, k: usize, w: &[u8; 32], i: usize) -> u32
        requires k_bound { k + 4 ≤ 8 }
        requires i_in_bounds { i + 4 ≤ 32 }
        ensures { result ≡ clocks (reflected self.kind) (8 * (k + 28)) (le (part w.now i 4)) }
    {
        self.look(k, w[i + 3])
            ^ self.look(k + 1, w[i + 2])
            ^ self.look(k + 2, w[i + 1])
            ^ self.look(k + 3, w[i])
    }

    // A register's turn: its eight bytes are added, and 256 bits fall out. The four bytes that meet the register come
    // last, so that the others need not wait for it.
    fn lane(self, c: u32, w: &[u8; 32], i: usize) -> u32
        requires { i + 8 ≤ 32 }
        ensures { result ≡ clocks (reflected self.kind) 256 (bit_xor c (le (part w.now i 8))) }
    {
        self.four(0, w, i + 4) ^ self.word(4, c ^ wire::u32_at(w, i))
    }

    // As many turns of 32 bytes as leave 32 bytes or more: the four registers, and those bytes. Not inlined, so that the
    // table has one address in the loop, not one of each polynomial for each of its eight rows.
    #[inline(never)]
    pub(crate) fn blocks<'a>(self, from: u32, s: &'a [u8]) -> (Lanes, &'a [u8])
        ensures { merged (reflected self.kind) result.0 result.1.now ≡ feeds (reflected self.kind) from s.now }
    {
        let mut r = Lanes {
            first: from,
            second: 0,
            third: 0,
            fourth: 0,
        };
        let mut rest = s;
        while let Some((w, after)) = rest.split_first_chunk() {
            if after.len() < 32 {
                break;
            }
            r = Lanes {
                first: self.lane(r.first, w, 0),
                second: self.lane(r.second, w, 8),
                third: self.lane(r.third, w, 16),
                fourth: self.lane(r.fourth, w, 24),
            };
            rest = after;
        }
        (r, rest)
    }
}
