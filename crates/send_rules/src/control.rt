// A packet of the link itself, whatever its body: answered, written, sealed.
ghost use Rattle.std.specs.Prelude.{◌≡◌, List, ℕ, length};
ghost use Rattle.std.proofs.lemmas.List.Edits.{sets};
ghost use Rattle.send_rules.specs.Control.{control_step, control_buffer};

use crate::Step;
use crate::allow::{control_answer, sent};
use link_state::Link;
use packet_out::seal;

// A body that a link itself sends.
pub trait ControlBody {
    ghost body: { Self → List ℕ };

    fn size(&self) -> usize
        ensures { result ≡ length (body self.now) };

    // From byte 12 of the buffer on.
    fn put(&self, buf: &mut [u8])
        ensures { buf.new ≡ sets buf.old 12 (body self.now) };
}

// Sends a packet of this type with this body. Where the answer is a refusal, nothing is written and the link stays;
// busy and id are as `check_send` and `sent` have them.
pub fn control_body_step<B: ControlBody>(
    link: Link,
    buf: &mut [u8],
    kind: u32,
    busy: bool,
    id: u64,
    what: &B,
) -> Step
    ensures { (result ≡ control_step link kind busy (B.body what.now) id (length buf.old))
        × (buf.new ≡ control_buffer link kind busy (B.body what.now) buf.old) }
{
    let len = what.size();
    match control_answer(link, kind, busy, len, buf.len()) {
        Ok(n) => {
            what.put(buf);
            seal(buf, link, kind, len);
            Step {
                link: sent(link, kind, id, n),
                answer: Ok(n),
            }
        }
        Err(r) => Step {
            link,
            answer: Err(r),
        },
    }
}
