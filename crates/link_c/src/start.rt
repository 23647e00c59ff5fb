// Setting up a link.
ghost use Rattle.std.specs.Prelude.{◌≡◌, None, Some};
ghost use Rattle.link_state.specs.SetUp.{set_up_of};
ghost use Rattle.link_c.specs.SetUpFields.{no_link, set_up_fields};

use crate::RelaySetUp;
use link_state::{Link, Settings, set_up, set_up_with_key};
use refusal::Refusal;

// A link that refuses every call.
#[tactic(auto, unfolding(crate::specs::SetUpFields::no_link))]
fn no_link() -> Link
    ensures { result ≡ no_link }
{
    Link {
        set: Settings {
            server: false,
            allows: false,
            lowest: 0,
            padded: false,
            cipher: false,
            only: false,
        },
        closed: true,
        crc32c: false,
        version: 0,
        stage: 0,
        phase: 0,
        awaits: false,
        owes: false,
        ciphered: false,
        keyid: 0,
        sends: 0,
        gets: 0,
        awaited: 0,
        owed: 0,
    }
}

impl From<Result<Link, Refusal>> for RelaySetUp {
    ghost from_gives = { λ answer fields. fields ≡ set_up_fields answer };

    #[tactic(auto, unfolding(crate::specs::SetUpFields::set_up_fields))]
    fn from(answer: Result<Link, Refusal>) -> RelaySetUp {
        match answer {
            Ok(link) => RelaySetUp { refusal: 0, link },
            Err(refusal) => RelaySetUp {
                refusal: u8::from(refusal),
                link: no_link(),
            },
        }
    }
}

// A link without a key, before its opening.
#[unsafe(no_mangle)]
pub extern "C" fn relay_set_up(set: Settings) -> RelaySetUp
    ensures { result ≡ set_up_fields (set_up_of set None) }
{
    RelaySetUp::from(set_up(set))
}

// A link with a key, before its opening. It keeps the key's first four bytes alone.
#[unsafe(no_mangle)]
pub extern "C" fn relay_set_up_with_key(set: Settings, key: &[u8]) -> RelaySetUp
    ensures { result ≡ set_up_fields (set_up_of set (Some key.now)) }
{
    RelaySetUp::from(set_up_with_key(set, key))
}
