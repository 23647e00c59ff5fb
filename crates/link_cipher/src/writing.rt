// The encryption and the KeyID in our Nonce.
ghost use Rattle.std.specs.Prelude.{◌≡◌};
ghost use Rattle.link_cipher.specs.Offered.{offer_of, encryption_of, offers_or_takes, sent_key_id};

use link_state::{Link, Settings};

// What a client offers.
#[tactic(auto, unfolding(crate::specs::Offered::offer_of))]
fn offer(set: Settings) -> u8
    ensures { result ≡ offer_of set }
{
    if !set.cipher {
        return 0;
    }
    if set.only { 1 } else { 2 }
}

// The encryption that we write: a client's offer, or a server's answer.
#[tactic(auto, unfolding(crate::specs::Offered::encryption_of))]
pub fn encryption(link: Link) -> u8
    ensures { result ≡ encryption_of link }
{
    if link.set.server {
        return u8::from(link.ciphered);
    }
    offer(link.set)
}

// Whether we offer the cipher, or take it.
#[tactic(auto, unfolding(crate::specs::Offered::offers_or_takes))]
pub fn offers_or_takes(link: Link) -> bool
    ensures { result ≡ offers_or_takes link }
{
    if link.set.server {
        link.ciphered
    } else {
        link.set.cipher
    }
}

// The KeyID that we write.
#[tactic(auto, unfolding(crate::specs::Offered::sent_key_id))]
pub fn key_id(link: Link) -> u32
    ensures { result ≡ sent_key_id link }
{
    if offers_or_takes(link) { link.keyid } else { 0 }
}
