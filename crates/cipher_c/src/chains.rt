// The calls over a buffer.
ghost use Rattle.std.specs.Prelude.{◌≡◌};
ghost use Rattle.aes.specs.Back.{back_cipher};
ghost use Rattle.aes.specs.Cbc.{encipher_answer, encipher_buffer, decipher_answer, decipher_buffer};
ghost use Rattle.cipher_c.specs.CipherFields.{chained_fields};

use crate::{RelayChained, RelayRoundKeys, RelayVector};
use aes_decipher::decipher;
use aes_encipher::encipher;
use refusal::Refusal;

// After a refusal the vector is v, the one that was given.
#[tactic(auto, unfolding(crate::specs::CipherFields::chained_fields))]
fn chained_fields(v: [u8; 16], answer: Result<[u8; 16], Refusal>) -> RelayChained
    ensures { result ≡ chained_fields v answer }
{
    match answer {
        Ok(n) => RelayChained {
            refusal: 0,
            vector: RelayVector { bytes: n },
        },
        Err(k) => RelayChained {
            refusal: u8::from(k),
            vector: RelayVector { bytes: v },
        },
    }
}

// The blocks of the buffer, enciphered in place.
#[unsafe(no_mangle)]
pub extern "C" fn relay_encipher(
    buf: &mut [u8],
    keys: RelayRoundKeys,
    vector: RelayVector,
) -> RelayChained
    ensures answer { result ≡ chained_fields vector.bytes (encipher_answer keys.bytes vector.bytes buf.old) }
    ensures buffer { buf.new ≡ encipher_buffer keys.bytes vector.bytes buf.old }
{
    let w = keys.bytes;
    let v = vector.bytes;
    chained_fields(v, encipher(w, v, buf))
}

// The blocks of the buffer, deciphered in place.
#[unsafe(no_mangle)]
pub extern "C" fn relay_decipher(
    buf: &mut [u8],
    keys: RelayRoundKeys,
    vector: RelayVector,
) -> RelayChained
    ensures answer { result ≡ chained_fields vector.bytes (decipher_answer vector.bytes buf.old) }
    ensures buffer { buf.new ≡ decipher_buffer (back_cipher keys.bytes) vector.bytes buf.old }
{
    let d = keys.bytes;
    let v = vector.bytes;
    chained_fields(v, decipher(d, v, buf))
}
