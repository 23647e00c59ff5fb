// The call over a buffer.
ghost use Rattle.std.specs.Prelude.{◌≡◌};
ghost use Rattle.aes.specs.Cbc.{encipher_answer, encipher_buffer};

use super::direction::Enciphering;
use aes_loops::chained;
use refusal::Refusal;

// The blocks of buf, enciphered in place under the round keys w, from the vector v. The answer is the vector for the
// next call; a length that is not a multiple of 16 is refused.
pub fn encipher(w: [u8; 240], v: [u8; 16], buf: &mut [u8]) -> Result<[u8; 16], Refusal>
    ensures answer { result ≡ encipher_answer w v buf.old }
    ensures buffer { buf.new ≡ encipher_buffer w v buf.old }
{
    if buf.len() % 16 != 0 {
        return Err(Refusal::NotWholeBlocks);
    }
    Ok(chained::<Enciphering>(&w, v, buf))
}
