// The encryption and the KeyID in the other side's Nonce.
ghost use Rattle.std.specs.Prelude.{◌≡◌};
ghost use Rattle.link_cipher.specs.Chosen.{server_refuses, client_refuses, encryption_refused};
ghost use Rattle.link_cipher.specs.Chosen.{chosen_of, cipher_refused};

use link_state::{Link, Settings};
use wire::{u8_at, u32_at};

// Whether a server refuses this encryption.
#[tactic(auto, unfolding(crate::specs::Chosen::server_refuses))]
fn server_refuses(set: Settings, encryption: u8) -> bool
    ensures { result ≡ server_refuses set encryption }
{
    if !set.cipher {
        return encryption == 1;
    }
    set.only && encryption == 0
}

// Whether a client does.
#[tactic(auto, unfolding(crate::specs::Chosen::client_refuses))]
fn client_refuses(set: Settings, encryption: u8) -> bool
    ensures { result ≡ client_refuses set encryption }
{
    if !set.cipher {
        return encryption != 0;
    }
    if set.only {
        encryption != 1
    } else {
        1 < encryption
    }
}

// Whether the settings refuse it.
#[tactic(auto, unfolding(crate::specs::Chosen::encryption_refused))]
fn encryption_refused(set: Settings, encryption: u8) -> bool
    ensures { result ≡ encryption_refused set encryption }
{
    if set.server {
        server_refuses(set, encryption)
    } else {
        client_refuses(set, encryption)
    }
}

// Whether the cipher is chosen, by the encryption in the other side's Nonce.
#[tactic(auto, unfolding(crate::specs::Chosen::chosen_of))]
pub fn chosen(set: Settings, encryption: u8) -> bool
    ensures { result ≡ chosen_of set encryption }
{
    if !set.cipher {
        return false;
    }
    if set.server {
        encryption != 0
    } else {
        encryption == 1
    }
}

// Whether the encryption that a Nonce's body names is refused, or its KeyID where the cipher is chosen.
#[tactic(auto, unfolding(crate::specs::Chosen::cipher_refused))]
pub fn refused(link: Link, b: &[u8]) -> bool
    ensures { result ≡ cipher_refused link b.now }
{
    let set = link.set;
    let encryption = u8_at(b, 4);
    encryption_refused(set, encryption) || (chosen(set, encryption) && u32_at(b, 0) != link.keyid)
}
