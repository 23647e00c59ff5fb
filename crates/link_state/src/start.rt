// Setting up a link, without a key or with one.
ghost use Rattle.std.specs.Prelude.{◌≡◌, [], ◌∷◌, ltb};
ghost use Rattle.wire.specs.Choice.{first};
ghost use Rattle.refusal.specs.declared.Refusal.TheVariants.{OutOfRange};
ghost use Rattle.link_state.specs.SetUp.{fresh_of, key_unsuitable, set_up_of};

use super::{Link, OUR_VERSION, Settings};
use refusal::Refusal;
use wire::u32_at;

// The number of each direction's first packet, -2 in 32 bits.
const FIRST_NUMBER: u32 = 4294967294;

// How long a link's key is.
const SHORTEST_KEY: usize = 32;

const LONGEST_KEY: usize = 4096;

#[tactic(auto, unfolding(crate::specs::SetUp::fresh_of))]
fn fresh(set: Settings, keyid: u32) -> Link
    ensures { result ≡ fresh_of set keyid }
{
    Link {
        set,
        closed: false,
        crc32c: false,
        version: 0,
        stage: 0,
        phase: 0,
        awaits: false,
        owes: false,
        ciphered: false,
        keyid,
        sends: FIRST_NUMBER,
        gets: FIRST_NUMBER,
        awaited: 0,
        owed: 0,
    }
}

// Whether a link may not have this key.
#[tactic(auto, unfolding(crate::specs::SetUp::key_unsuitable))]
fn key_unsuitable(key: &[u8]) -> bool
    ensures { result ≡ key_unsuitable key.now }
{
    LONGEST_KEY < key.len() || key.len() < SHORTEST_KEY || u32_at(key, 0) == 0
}

// A link with this KeyID, or 30 for a lowest version above ours.
fn started(set: Settings, keyid: u32) -> Result<Link, Refusal>
    ensures { result ≡ first ((ltb 2 set.lowest, Err OutOfRange) ∷ []) (Ok (fresh_of set keyid)) }
{
    if OUR_VERSION < set.lowest {
        return Err(Refusal::OutOfRange);
    }
    Ok(fresh(set, keyid))
}

// A link without a key before its opening, or 36 for one that would offer or take the cipher, then 30.
#[tactic(auto, unfolding(crate::specs::SetUp::key_refused, crate::specs::SetUp::key_id_of, crate::specs::SetUp::set_up_of))]
pub fn set_up(set: Settings) -> Result<Link, Refusal>
    ensures { result ≡ set_up_of set None }
{
    if set.cipher {
        return Err(Refusal::UnsuitableKey);
    }
    started(set, 0)
}

// A link with a key before its opening, or 36 for an unsuitable key, then 30. The link keeps the key's first four
// bytes and no more: the caller keeps the key.
#[tactic(auto, unfolding(crate::specs::SetUp::key_refused, crate::specs::SetUp::key_id_of, crate::specs::SetUp::set_up_of))]
pub fn set_up_with_key(set: Settings, key: &[u8]) -> Result<Link, Refusal>
    ensures { result ≡ set_up_of set (Some key.now) }
{
    if key_unsuitable(key) {
        return Err(Refusal::UnsuitableKey);
    }
    started(set, u32_at(key, 0))
}
