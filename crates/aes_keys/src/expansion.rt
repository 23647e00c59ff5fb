// Key expansion (FIPS 197, 5.2).
ghost use Rattle.std.specs.Prelude.{◌≡◌, [], ◌∷◌, ◌+◌, ◌≤◌, ◌<◌, length, take, drop};
ghost use Rattle.aes.specs.Aes.{rcon, temp, keys};
ghost use Rattle.aes.specs.Words.{bytes4};

use super::substitution::sub_word;
use aes_loops::rotated;
use store::put_u32;
use store_bytes::copy;
use wire::u32_at;

// The word at an offset.
fn key4(k: &[u8], at: usize) -> u32
    requires { at + 4 ≤ length k.now }
    ensures { bytes4 result ≡ take 4 (drop at k.now) }
{
    u32_at(k, at)
}

// The round constants.
#[tactic(auto, unfolding(aes::specs::Words::bytes4, aes::specs::Aes::rcon, aes::specs::Field::xtime))]
fn rc(j: usize) -> u32
    requires { (0 < j) × (j < 8) }
    ensures { bytes4 result ≡ rcon j ∷ 0 ∷ 0 ∷ 0 ∷ [] }
{
    match j {
        1 => 1,
        2 => 2,
        3 => 4,
        4 => 8,
        5 => 16,
        6 => 32,
        _ => 64,
    }
}

// What is added to the word eight words back, from the word before.
fn temp(i: usize, p: u32) -> u32
    requires { (7 < i) × (i < 60) }
    ensures { bytes4 result ≡ temp i (bytes4 p) }
{
    let m = i % 8;
    if m == 0 {
        sub_word(rotated(p, 3), rc(i / 8))
    } else if m == 4 {
        sub_word(p, 0)
    } else {
        p
    }
}

// From the key in the first 32 bytes of w all 240.
fn expand(w: &mut [u8])
    requires { length w.old ≡ 240 }
    ensures { w.new ≡ keys (take 32 w.old) }
{
    for i in 8..60 {
        let p = key4(w, i * 4 - 4);
        let x = temp(i, p);
        let y = key4(w, i * 4 - 32);
        put_u32(w, i * 4, y ^ x);
    }
}

// The 240 bytes of round keys.
pub fn round_keys(key: [u8; 32]) -> [u8; 240]
    ensures { result ≡ keys key }
{
    let mut w = [0u8; 240];
    copy(&mut w, 0, &key);
    expand(&mut w);
    w
}
