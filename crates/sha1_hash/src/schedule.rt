// The 80 words that a block is spread to.
ghost use Rattle.std.specs.Prelude.{◌≡◌, ◌+◌, ◌<◌, ◌≤◌, length};
ghost use Rattle.wire.specs.Bytes.{part};
ghost use Rattle.hash_blocks.specs.Words.{be};
ghost use Rattle.sha1_hash.specs.Sha1.{word_of};

// The word at an offset, the first byte highest.
fn high_word(b: &[u8; 64], at: usize) -> u32
    requires { at + 4 ≤ 64 }
    ensures { result ≡ be (part b.now at 4) }
{
    u32::from_be_bytes([b[at], b[at + 1], b[at + 2], b[at + 3]])
}

// Word t, from the block or from earlier words.
pub(crate) fn word(b: &[u8; 64], w: &[u32; 80], t: usize) -> u32
    requires { t < 80 }
    ensures { result ≡ word_of b.now t w.now }
{
    if t < 16 {
        high_word(b, 4 * t)
    } else {
        (w[t - 3] ^ w[t - 8] ^ w[t - 14] ^ w[t - 16]).rotate_left(1)
    }
}
