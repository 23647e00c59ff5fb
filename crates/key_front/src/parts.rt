// The parts of the front, each at its place.
ghost use Rattle.std.specs.Prelude.{◌≡◌, eqb};
ghost use Rattle.std.proofs.lemmas.List.Edits.{sets};
ghost use Rattle.wire.specs.Choice.{pick};
ghost use Rattle.key_front.specs.Front.{randoms_of, direction_of, front_of};

use super::Ends;
use store::{put_u16, put_u32};
use store_bytes::copy;

// The random bytes of both Nonces, the server's first.
pub fn randoms(s: &Ends) -> [u8; 32]
    ensures { result ≡ randoms_of s.now }
{
    let mut r = [0; 32];
    r[..16].copy_from_slice(&s.server.random);
    r[16..].copy_from_slice(&s.client.random);
    r
}

// Which direction the keys are for.
#[tactic(auto, unfolding(crate::specs::Front::direction_of))]
fn put_direction(buf: &mut [u8], server: bool)
    ensures { buf.new ≡ sets buf.old 42 (direction_of server) }
{
    if server {
        copy(buf, 42, b"SERVER");
    } else {
        copy(buf, 42, b"CLIENT");
    }
}

// One thing in version 0, another in later versions.
fn by_version<T: Copy>(version: u8, first: T, later: T) -> T
    ensures { result ≡ pick (eqb version 0) first later }
{
    if version == 0 { first } else { later }
}

// All that stands before the key: 54 bytes.
pub fn put_front(buf: &mut [u8], version: u8, server: bool, s: &Ends)
    ensures { buf.new ≡ sets buf.old 0 (front_of version server s.now) }
{
    copy(buf, 0, &randoms(s));
    put_u32(buf, 32, s.client.time);
    put_u32(buf, 36, by_version(version, s.server.ip, s.server.time));
    put_u16(buf, 40, by_version(version, s.client.port, 0));
    put_direction(buf, server);
    put_u32(buf, 48, by_version(version, s.client.ip, 0));
    put_u16(buf, 52, by_version(version, s.server.port, 0));
}
