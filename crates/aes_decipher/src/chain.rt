// The call over a buffer.
ghost use Rattle.std.specs.Prelude.{◌≡◌};
ghost use Rattle.aes.specs.Back.{back_cipher};
ghost use Rattle.aes.specs.Cbc.{decipher_answer, decipher_buffer};

use super::direction::Deciphering;
use aes_loops::chained;
use refusal::Refusal;

// The blocks of buf, deciphered in place under the round keys d for deciphering, from the vector v. The answer is the
// vector for the next call; a length that is not a multiple of 16 is refused.
pub fn decipher(d: [u8; 240], v: [u8; 16], buf: &mut [u8]) -> Result<[u8; 16], Refusal>
    ensures answer { result ≡ decipher_answer v buf.old }
    ensures buffer { buf.new ≡ decipher_buffer (back_cipher d) v buf.old }
{
    if buf.len() % 16 != 0 {
        return Err(Refusal::NotWholeBlocks);
    }
    Ok(chained::<Deciphering>(&d, v, buf))
}
