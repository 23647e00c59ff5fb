// The other side's Nonce.
ghost use Rattle.std.specs.Prelude.{◌≡◌};
ghost use Rattle.opening.specs.Nonce.{least_of, beyond_of, check_nonce};

use crate::times::near;
use link_state::{Link, Moment, OUR_VERSION, Settings};
use refusal::Refusal;
use wire::u8_at;

// How long a Nonce's body of this version is at least.
#[tactic(auto, unfolding(crate::specs::Nonce::least_of))]
pub fn least(version: u8) -> usize
    ensures { result ≡ least_of version }
{
    if version < 2 { 28 } else { 60 }
}

// Whether a version is above a client's own.
#[tactic(auto, unfolding(crate::specs::Nonce::beyond_of))]
fn beyond(set: Settings, version: u8) -> bool
    ensures { result ≡ beyond_of set version }
{
    !set.server && OUR_VERSION < version
}

// Refuses a Nonce with this body, or lets it pass.
#[tactic(auto, unfolding(crate::specs::Nonce::check_nonce))]
pub fn check_nonce(link: Link, b: &[u8], moment: Moment) -> Result<(), Refusal>
    ensures { result ≡ check_nonce link b.now moment }
{
    let set = link.set;
    let version = u8_at(b, 5);
    if b.len() < least(version) {
        return Err(Refusal::OpeningShort);
    }
    if !near(b, moment) {
        return Err(Refusal::Clocks);
    }
    if version < set.lowest {
        return Err(Refusal::VersionTooOld);
    }
    if link_cipher::refused(link, b) {
        return Err(Refusal::Encryption);
    }
    if beyond(set, version) {
        return Err(Refusal::BeyondOffer);
    }
    Ok(())
}
