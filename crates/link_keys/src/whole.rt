// The derivation whole.
ghost use Rattle.std.specs.Prelude.{◌≡◌};
ghost use Rattle.key_message.specs.Message.{message_buffer};
ghost use Rattle.link_keys.specs.Keys.{derived};

use super::Derived;
use super::hashes::{aes_key, start_vector};
use key_message::{Derivation, write_message};
use refusal::Refusal;

// The keys of a derivation, with the key that both sides have. The buffer then holds the message, and so the key and
// the shared bytes: the caller clears it (`store_bytes::clear`), the answer and its own copies when it is done with
// them.
pub fn derive(buf: &mut [u8], what: &Derivation, key: &[u8]) -> Result<Derived, Refusal>
    ensures answer { result ≡ derived what.now.version what.now.server what.now.ends key.now what.now.shared buf.old }
    ensures buffer { buf.new ≡ message_buffer what.now.version what.now.server what.now.ends key.now
        what.now.shared buf.old }
{
    let size = write_message(buf, what, key)?;
    let message = &buf[..size];
    Ok(Derived {
        size,
        key: aes_key(message),
        vector: start_vector(message),
    })
}
