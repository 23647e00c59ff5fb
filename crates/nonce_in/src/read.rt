// Reading a Nonce's body.
ghost use Rattle.std.specs.Prelude.{◌≡◌};
ghost use Rattle.nonce_in.specs.Fields.{point_place, fields_of, nonce_of};

use super::{NonceFields, Place};
use opening::least;
use refusal::Refusal;
use wire::{u8_at, u32_at};

// Where the DH point stands: from version 2 on, behind the random bytes.
#[tactic(auto, unfolding(crate::specs::Fields::point_place))]
fn point(version: u8) -> Place
    ensures { result ≡ point_place version }
{
    Place {
        at: 28,
        len: if version < 2 { 0 } else { 32 },
    }
}

#[tactic(auto, unfolding(crate::specs::Fields::fields_of))]
fn fields(b: &[u8]) -> NonceFields
    ensures { result ≡ fields_of b.now }
{
    let version = u8_at(b, 5);
    NonceFields {
        version,
        time: u32_at(b, 8),
        random: Place { at: 12, len: 16 },
        point: point(version),
    }
}

// The fields of a Nonce with this body, or 7 where it is short.
#[tactic(auto, unfolding(crate::specs::Fields::nonce_of))]
pub fn nonce_fields(b: &[u8]) -> Result<NonceFields, Refusal>
    ensures { result ≡ nonce_of b.now }
{
    if b.len() < least(u8_at(b, 5)) {
        return Err(Refusal::OpeningShort);
    }
    Ok(fields(b))
}
