// The fields before a packet's body: which length, number and type are refused.
ghost use Rattle.std.specs.Prelude.{◌≡◌};
ghost use Rattle.packet_head.specs.Head.{check_length, check_head};

use link_state::Link;
use packet::allowed;
use refusal::Refusal;

// The longest packet after the opening, and the length that is too much in it.
const LONGEST: u32 = 16777215;

const LONG_IN_OPENING: u32 = 1024;

// Refuses a length that a packet may not have now.
#[tactic(auto, unfolding(crate::specs::Head::check_length))]
pub fn check_length(link: Link, len: u32) -> Result<(), Refusal>
    ensures { result ≡ check_length link len }
{
    if len < 16 {
        return Err(Refusal::LengthUnder16);
    }
    if link.stage < 4 {
        if LONG_IN_OPENING <= len {
            return Err(Refusal::LengthInOpening);
        }
    } else if LONGEST < len {
        return Err(Refusal::LengthOverLimit);
    }
    Ok(())
}

// Refuses a number, then a type, that it may not have now.
#[tactic(auto, unfolding(crate::specs::Head::check_head))]
pub fn check_head(link: Link, number: u32, kind: u32) -> Result<(), Refusal>
    ensures { result ≡ check_head link number kind }
{
    if number != link.gets {
        return Err(Refusal::PacketNumber);
    }
    if !allowed(link, kind) {
        return Err(Refusal::TypeNotAllowed);
    }
    Ok(())
}
