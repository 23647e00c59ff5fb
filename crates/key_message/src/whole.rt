// The message whole.
ghost use Rattle.std.specs.Prelude.{◌≡◌, ◌≤◌, length, IfOk};
ghost use Rattle.std.proofs.lemmas.List.Edits.{sets};
ghost use Rattle.key_message.specs.Message.{size_of, message, size_or_refusal, message_buffer};

use super::Derivation;
use key_front::{put_front, randoms};
use refusal::Refusal;
use store_bytes::copy;

// The longest key, and the newest version.
const LONGEST_KEY: usize = 4096;

const NEWEST_VERSION: u8 = 2;

// How long the message is with a key of so many bytes.
#[tactic(auto, unfolding(crate::specs::Message::size_of))]
fn size(version: u8, key: usize) -> usize
    requires { key ≤ 4096 }
    ensures { result ≡ size_of version key }
{
    if version == 2 { 118 + key } else { 86 + key }
}

#[tactic(auto, unfolding(crate::specs::Message::size_or_refusal))]
fn size_or_refusal(version: u8, key: usize, room: usize) -> Result<usize, Refusal>
    ensures answer { result ≡ size_or_refusal version key room }
    ensures told { IfOk result (λ n. (key ≤ 4096) × ((n ≤ room) × (n ≡ size_of version key))) }
{
    if LONGEST_KEY < key {
        return Err(Refusal::UnsuitableKey);
    }
    if NEWEST_VERSION < version {
        return Err(Refusal::OutOfRange);
    }
    let n = size(version, key);
    if room < n {
        return Err(Refusal::BufferTooSmall);
    }
    Ok(n)
}

fn put_message(buf: &mut [u8], what: &Derivation, key: &[u8])
    requires { length key.now ≤ 4096 }
    ensures stored { buf.new ≡ sets buf.old 0
        (message what.now.version what.now.server what.now.ends key.now what.now.shared) }
    ensures size { length (message what.now.version what.now.server what.now.ends key.now what.now.shared)
        ≡ size_of what.now.version (length key.now) }
{
    put_front(buf, what.version, what.server, &what.ends);
    copy(buf, 54, key);
    let at = 54 + key.len();
    copy(buf, at, &randoms(&what.ends));
    if what.version == 2 {
        copy(buf, at + 32, &what.shared);
    }
}

// The message of a derivation, with the key that both sides have.
pub fn write_message(buf: &mut [u8], what: &Derivation, key: &[u8]) -> Result<usize, Refusal>
    ensures answer { result ≡ size_or_refusal what.now.version (length key.now) (length buf.old) }
    ensures buffer { buf.new ≡ message_buffer what.now.version what.now.server what.now.ends key.now
        what.now.shared buf.old }
    ensures size { IfOk result (λ n. (n ≤ length buf.old)
        × (length (message what.now.version what.now.server what.now.ends key.now what.now.shared) ≡ n)) }
{
    let size = size_or_refusal(what.version, key.len(), buf.len())?;
    put_message(buf, what, key);
    Ok(size)
}
