// A message: what it begins with, and what the last state is as bytes.
ghost use Rattle.std.specs.Prelude.{◌≡◌};
ghost use Rattle.md5_hash.specs.Md5.{digest, md5};

use super::State;
use super::tables::Md5;
use hash_blocks::hash;

// The words of a state as bytes, the lowest first.
fn digest(m: State) -> [u8; 16]
    ensures { result ≡ digest m }
{
    let mut d = [0; 16];
    d[..4].copy_from_slice(&m.a.to_le_bytes());
    d[4..8].copy_from_slice(&m.b.to_le_bytes());
    d[8..12].copy_from_slice(&m.c.to_le_bytes());
    d[12..].copy_from_slice(&m.d.to_le_bytes());
    d
}

// MD5 of s.
#[tactic(auto, unfolding(crate::specs::Md5::md5, crate::specs::Md5::start))]
pub fn md5(s: &[u8]) -> [u8; 16]
    ensures { result ≡ md5 s.now }
{
    let start = State {
        a: 0x6745_2301,
        b: 0xefcd_ab89,
        c: 0x98ba_dcfe,
        d: 0x1032_5476,
    };
    let by = Md5::new();
    digest(hash(&by, start, s, false))
}
