// The other side's Handshake.
ghost use Rattle.std.specs.Prelude.{◌≡◌};
ghost use Rattle.handshake_in.specs.Handshake.{flag_of, check_handshake};

use link_state::Settings;
use refusal::Refusal;
use wire::u32_at;

// Whether a Handshake's flags have 0x800, which offers CRC-32C or grants it.
#[tactic(auto, unfolding(crate::specs::Handshake::flag_of))]
pub fn flagged(b: &[u8]) -> bool
    ensures { result ≡ flag_of b.now }
{
    u32_at(b, 0) / 0x800 % 2 == 1
}

// Refuses a Handshake with this body, or lets it pass.
#[tactic(auto, unfolding(crate::specs::Handshake::check_handshake))]
pub fn check_handshake(set: Settings, b: &[u8]) -> Result<(), Refusal>
    ensures { result ≡ check_handshake set b.now }
{
    if b.len() < 28 {
        return Err(Refusal::OpeningShort);
    }
    if set.server || set.allows {
        return Ok(());
    }
    if flagged(b) {
        return Err(Refusal::BeyondOffer);
    }
    Ok(())
}
