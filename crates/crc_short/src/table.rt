// A polynomial with its table of half bytes, and the register's steps by it.
ghost use Rattle.std.specs.Prelude.{◌≡◌, ◌+◌, ◌*◌, ◌≤◌, ◌<◌};
ghost use Rattle.crc.specs.Crc.{reflected, clocks, feed, feeds};
ghost use Rattle.crc.specs.Interleaved.{merged};
ghost use Rattle.crc_short.specs.HalfBytes.{Halves};

use crate::entries::{CASTAGNOLI, IEEE};
use crc::{Lanes, Polynomial};

#[derive(Clone, Copy)]
pub(crate) struct Table {
    kind: Polynomial,
    entries: &'static [u32; 256],
    ghost right: { Halves (reflected kind) entries.now },
}

impl Table {
    pub(crate) fn of(kind: Polynomial) -> Table
        ensures { result.kind ≡ kind }
    {
        match kind {
            Polynomial::Ieee => Table {
                kind: Polynomial::Ieee,
                entries: &IEEE,
            },
            Polynomial::Castagnoli => Table {
                kind: Polynomial::Castagnoli,
                entries: &CASTAGNOLI,
            },
        }
    }

    // What 8 (k + 1) bits make of a byte: the sum of the entries of its halves.
    fn look(self, k: usize, x: u8) -> u32
        requires { k < 8 }
        ensures { result ≡ clocks (reflected self.kind) (8 * (k + 1)) x }
    {
        self.entries[k * 32 + usize::from(x % 16)] ^ self.entries[k * 32 + 16 + usize::from(x / 16)]
    }

    // What 8 (k + 4) bits make of four bytes.
    fn word(self, k: usize, w: u32) -> u32
        requires { k + 4 ≤ 8 }
        ensures { result ≡ clocks (reflected self.kind) (8 * (k + 4)) w }
    {
        let [a, b, c, d] = w.to_le_bytes();
        self.look(k, d) ^ self.look(k + 1, c) ^ self.look(k + 2, b) ^ self.look(k + 3, a)
    }

    // Eight bytes at once. The four that meet the register come last, so that the others need not wait for it.
    fn step(self, c: u32, s: &[u8; 8]) -> u32
        ensures { result ≡ feeds (reflected self.kind) c s.now }
    {
        self.word(0, wire::u32_at(s, 4)) ^ self.word(4, c ^ wire::u32_at(s, 0))
    }

    // One byte.
    fn one(self, c: u32, b: u8) -> u32
        ensures { result ≡ feed (reflected self.kind) c b }
    {
        let w = c ^ u32::from(b);
        (w / 256) ^ self.look(0, (w % 256) as u8)
    }

    // The register after the bytes of s.
    pub(crate) fn run(self, from: u32, s: &[u8]) -> u32
        ensures { result ≡ feeds (reflected self.kind) from s.now }
    {
        let mut c = from;
        let mut rest = s;
        while let Some((eight, after)) = rest.split_first_chunk() {
            c = self.step(c, eight);
            rest = after;
        }
        for b in rest {
            c = self.one(c, *b);
        }
        c
    }

    // Four registers that stand eight bytes apart become one, each joining the others at its place.
    pub(crate) fn joined(self, r: Lanes, s: &[u8]) -> u32
        ensures { result ≡ merged (reflected self.kind) r s.now }
    {
        let n = s.len();
        let x = n.min(8);
        let y = n.min(16);
        let z = n.min(24);
        let c0 = self.run(r.first, &s[..x]) ^ r.second;
        let c1 = self.run(c0, &s[x..y]) ^ r.third;
        let c2 = self.run(c1, &s[y..z]) ^ r.fourth;
        self.run(c2, &s[z..])
    }
}
