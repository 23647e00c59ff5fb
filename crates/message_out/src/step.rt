// One message as one packet.
ghost use Rattle.std.specs.Prelude.{◌≡◌, length};
ghost use Rattle.message_out.specs.MessageStep.{message_answer, message_step, message_buffer};

use crate::Outgoing;
use crate::early::{check_early, kind_of};
use crate::place::place_body;
use link_state::Link;
use packet_out::seal;
use packet_padding::tail;
use refusal::Refusal;
use send_rules::{Step, sent};

// The message as a packet at the front of the buffer, and the size that it takes with its zeros; or a refusal.
fn message_answer(
    link: Link,
    buf: &mut [u8],
    what: Outgoing,
    payload: &[u8],
) -> Result<usize, Refusal>
    ensures { (result ≡ message_answer link what payload.now (length buf.old))
        × (buf.new ≡ message_buffer link what payload.now buf.old) }
{
    check_early(link, what)?;
    let len = place_body(buf, link, what, payload)?;
    let length = len + 16;
    let size = length + tail(link, length);
    seal(buf, link, kind_of(what), len);
    Ok(size)
}

// The message as a packet at the front of the buffer, and the link after it; or a refusal.
#[tactic(auto, unfolding(crate::specs::MessageStep::message_step))]
pub fn message_step(link: Link, buf: &mut [u8], what: Outgoing, payload: &[u8]) -> Step
    ensures { (result ≡ message_step link what payload.now (length buf.old))
        × (buf.new ≡ message_buffer link what payload.now buf.old) }
{
    match message_answer(link, buf, what, payload) {
        Ok(size) => {
            let next = sent(link, kind_of(what), 0, size);
            Step {
                link: next,
                answer: Ok(size),
            }
        }
        Err(refusal) => Step {
            link,
            answer: Err(refusal),
        },
    }
}
