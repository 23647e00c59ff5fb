// The digests.
ghost use Rattle.std.specs.Prelude.{◌≡◌};
ghost use Rattle.md5_hash.specs.Md5.{md5};
ghost use Rattle.sha1_hash.specs.Sha1.{sha1};

use crate::{RelayMd5, RelaySha1};

// MD5 of s.
#[unsafe(no_mangle)]
pub extern "C" fn relay_md5(s: &[u8]) -> RelayMd5
    ensures { result.bytes ≡ md5 s.now }
{
    RelayMd5 {
        bytes: md5_hash::md5(s),
    }
}

// SHA-1 of s.
#[unsafe(no_mangle)]
pub extern "C" fn relay_sha1(s: &[u8]) -> RelaySha1
    ensures { result.bytes ≡ sha1 s.now }
{
    RelaySha1 {
        bytes: sha1_hash::sha1(s),
    }
}
