// The derivation.
ghost use Rattle.std.specs.Prelude.{◌≡◌};
ghost use Rattle.key_message.specs.Message.{message_buffer};
ghost use Rattle.link_keys.specs.Keys.{derived};
ghost use Rattle.keys_c.specs.KeyFields.{derived_fields};

use crate::RelayDerived;
use key_message::Derivation;
use link_keys::{Derived, derive};
use refusal::Refusal;

#[tactic(auto, unfolding(crate::specs::KeyFields::derived_fields))]
fn derived_fields(derived: Result<Derived, Refusal>) -> RelayDerived
    ensures { result ≡ derived_fields derived }
{
    match derived {
        Ok(d) => {
            let key = d.key;
            let vector = d.vector;
            RelayDerived {
                refusal: 0,
                size: d.size,
                key,
                vector,
            }
        }
        Err(refusal) => RelayDerived {
            refusal: u8::from(refusal),
            size: 0,
            key: [0; 32],
            vector: [0; 16],
        },
    }
}

// The keys of one direction; the init message stands at the buffer's front afterwards.
#[unsafe(no_mangle)]
pub extern "C" fn relay_derive(buf: &mut [u8], what: Derivation, key: &[u8]) -> RelayDerived
    ensures { (result ≡ derived_fields
        (derived what.version what.server what.ends
        key.now what.shared buf.old))
        × (buf.new
        ≡ message_buffer what.version what.server what.ends
        key.now what.shared buf.old) }
{
    derived_fields(derive(buf, &what, key))
}
