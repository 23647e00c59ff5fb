// A Nonce's fields.
ghost use Rattle.std.specs.Prelude.{◌≡◌};
ghost use Rattle.nonce_in.specs.Fields.{nonce_of};
ghost use Rattle.keys_c.specs.KeyFields.{nonce_fields};

use crate::RelayNonceFields;
use nonce_in::{NonceFields, Place, nonce_fields};
use refusal::Refusal;

#[tactic(auto, unfolding(crate::specs::KeyFields::nonce_fields))]
fn read_fields(read: Result<NonceFields, Refusal>) -> RelayNonceFields
    ensures { result ≡ nonce_fields read }
{
    match read {
        Ok(f) => RelayNonceFields {
            refusal: 0,
            version: f.version,
            time: f.time,
            random: f.random,
            point: f.point,
        },
        Err(refusal) => RelayNonceFields {
            refusal: u8::from(refusal),
            version: 0,
            time: 0,
            random: Place { at: 0, len: 0 },
            point: Place { at: 0, len: 0 },
        },
    }
}

// What a derivation needs of a Nonce with this body.
#[unsafe(no_mangle)]
pub extern "C" fn relay_read_nonce(body: &[u8]) -> RelayNonceFields
    ensures { result ≡ nonce_fields (nonce_of body.now) }
{
    read_fields(nonce_fields(body))
}
