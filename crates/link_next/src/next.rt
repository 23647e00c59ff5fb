// The link after a packet, and after a refusal.
ghost use Rattle.std.specs.Prelude.{◌≡◌};
ghost use Rattle.link_next.specs.Next.{closed_of, closes_of, refused_of, agreed_after, version_after, ciphered_after, after_of};

use crate::keep_alive::{awaits_after, owed_after, owes_after};
use handshake_in::flagged;
use link_cipher::chosen;
use link_state::{Link, Moment, stage_after};
use packet::{HANDSHAKE, NONCE};
use refusal::Refusal;
use wire::u8_at;

#[tactic(auto, unfolding(crate::specs::Next::closed_of))]
fn close(link: Link) -> Link
    ensures { result ≡ closed_of link }
{
    Link {
        closed: true,
        ..link
    }
}

// Whether a refusal closes the link on receive.
#[tactic(auto, unfolding(crate::specs::Next::closes_of, refusal::specs::Numbers::number))]
fn closes(refusal: Refusal) -> bool
    ensures { result ≡ closes_of refusal }
{
    match refusal {
        Refusal::LengthUnder16
        | Refusal::LengthOverLimit
        | Refusal::LengthInOpening
        | Refusal::PacketNumber
        | Refusal::TypeNotAllowed
        | Refusal::Checksum
        | Refusal::OpeningShort
        | Refusal::Clocks
        | Refusal::Encryption
        | Refusal::BeyondOffer
        | Refusal::BodySize
        | Refusal::PingOutOfTurn
        | Refusal::VersionTooOld
        | Refusal::PaddingNotZero
        | Refusal::FourthWord => true,
        _ => false,
    }
}

// The link after a refusal.
#[tactic(auto, unfolding(crate::specs::Next::refused_of))]
pub fn refused(link: Link, refusal: Refusal) -> Link
    ensures { result ≡ refused_of link refusal }
{
    if closes(refusal) { close(link) } else { link }
}

// Whether CRC-32C is agreed, after a packet.
#[tactic(auto, unfolding(crate::specs::Next::agreed_after))]
fn agreed_after(link: Link, kind: u32, b: &[u8]) -> bool
    ensures { result ≡ agreed_after link kind b.now }
{
    if kind == HANDSHAKE {
        link.set.allows && flagged(b)
    } else {
        link.crc32c
    }
}

// The version of the other side's Nonce, after a packet.
#[tactic(auto, unfolding(crate::specs::Next::version_after))]
fn version_after(link: Link, kind: u32, b: &[u8]) -> u8
    ensures { result ≡ version_after link kind b.now }
{
    if kind == NONCE {
        u8_at(b, 5)
    } else {
        link.version
    }
}

// Whether the cipher is chosen, after a packet.
#[tactic(auto, unfolding(crate::specs::Next::ciphered_after))]
fn ciphered_after(link: Link, kind: u32, b: &[u8]) -> bool
    ensures { result ≡ ciphered_after link kind b.now }
{
    if kind == NONCE {
        chosen(link.set, u8_at(b, 4))
    } else {
        link.ciphered
    }
}

// The link after a packet of this type, with this body.
#[tactic(auto, unfolding(crate::specs::Next::after_of))]
pub fn after(link: Link, kind: u32, b: &[u8], moment: Moment) -> Link
    ensures { result ≡ after_of link kind b.now moment }
{
    Link {
        crc32c: agreed_after(link, kind, b),
        version: version_after(link, kind, b),
        stage: stage_after(link.stage),
        awaits: awaits_after(link, kind),
        owes: owes_after(link, kind),
        ciphered: ciphered_after(link, kind, b),
        gets: link.gets.wrapping_add(1),
        owed: owed_after(link, kind, b),
        ..link
    }
}
