// The round keys.
ghost use Rattle.std.specs.Prelude.{◌≡◌};
ghost use Rattle.aes.specs.Aes.{keys};
ghost use Rattle.aes.specs.Back.{back_keys};

use crate::{RelayCipherKey, RelayRoundKeys};
use aes_back_keys::back_keys;
use aes_keys::round_keys;

// The round keys for enciphering under a key.
#[unsafe(no_mangle)]
pub extern "C" fn relay_encipher_keys(key: RelayCipherKey) -> RelayRoundKeys
    ensures { result.bytes ≡ keys key.bytes }
{
    let k = key.bytes;
    let bytes = round_keys(k);
    RelayRoundKeys { bytes }
}

// The round keys for deciphering under a key.
#[unsafe(no_mangle)]
pub extern "C" fn relay_decipher_keys(key: RelayCipherKey) -> RelayRoundKeys
    ensures { result.bytes ≡ back_keys (keys key.bytes) }
{
    let k = key.bytes;
    let w = round_keys(k);
    let bytes = back_keys(w);
    RelayRoundKeys { bytes }
}
