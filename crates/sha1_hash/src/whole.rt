// A message: what it begins with, and what the last state is as bytes.
ghost use Rattle.std.specs.Prelude.{◌≡◌};
ghost use Rattle.sha1_hash.specs.Sha1.{digest, sha1};

use super::State;
use super::turns::Sha1;
use hash_blocks::hash;

// The words of a state as bytes, the highest first.
fn digest(q: State) -> [u8; 20]
    ensures { result ≡ digest q }
{
    let mut d = [0; 20];
    d[..4].copy_from_slice(&q.a.to_be_bytes());
    d[4..8].copy_from_slice(&q.b.to_be_bytes());
    d[8..12].copy_from_slice(&q.c.to_be_bytes());
    d[12..16].copy_from_slice(&q.d.to_be_bytes());
    d[16..].copy_from_slice(&q.e.to_be_bytes());
    d
}

// SHA-1 of s.
#[tactic(auto, unfolding(crate::specs::Sha1::sha1, crate::specs::Sha1::start))]
pub fn sha1(s: &[u8]) -> [u8; 20]
    ensures { result ≡ sha1 s.now }
{
    let start = State {
        a: 0x6745_2301,
        b: 0xefcd_ab89,
        c: 0x98ba_dcfe,
        d: 0x1032_5476,
        e: 0xc3d2_e1f0,
    };
    digest(hash(&Sha1, start, s, true))
}
