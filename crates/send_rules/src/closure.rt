// A packet of the link itself, whose body a closure writes.
ghost use Rattle.std.specs.Prelude.{◌≡◌, List, ℕ, length};
ghost use Rattle.std.specs.Fn.{FnOnceReturnsAtMut};
ghost use Rattle.send_rules.specs.Control.{step_by, control_answer, Leaves, Stores, control_step, control_buffer};

use crate::Step;
use crate::allow::{control_answer, sent};
use link_state::Link;
use packet_out::seal;

// Sends a packet of this type, whose body of len bytes write leaves from byte 12 of the buffer on. Where the answer is
// a refusal, nothing is written and the link stays; busy and id are as `check_send` and `sent` have them.
// Kept: no `ControlBody`, which the link's own sends hand to `control_body_step`, is made of a caller's closure. What
// calls a closure asks that it can be called. `answer` and `buffer` say what is left whatever the closure writes, and
// `of_body` what packet that is where the closure always stores the same body.
pub fn control_step<F: FnOnce(&mut [u8])>(
    link: Link,
    buf: &mut [u8],
    kind: u32,
    busy: bool,
    id: u64,
    len: usize,
    write: F,
) -> Step
    requires { F.IsAlwaysCallable write }
    ensures answer { result ≡ step_by link kind id (control_answer link kind busy len (length buf.old)) }
    ensures buffer { Leaves (λ b b'. FnOnceReturnsAtMut F.FnOnce write b tt b') link kind len buf.old buf.new
        (control_answer link kind busy len (length buf.old)) }
    ensures of_body { (body : List ℕ) → length body ≡ len
        → Stores (λ b b'. FnOnceReturnsAtMut F.FnOnce write b tt b') body
        → (result ≡ control_step link kind busy body id (length buf.old))
        × (buf.new ≡ control_buffer link kind busy body buf.old) }
{
    match control_answer(link, kind, busy, len, buf.len()) {
        Ok(n) => {
            write(buf);
            seal(buf, link, kind, len);
            Step {
                link: sent(link, kind, id, n),
                answer: Ok(n),
            }
        }
        Err(r) => Step {
            link,
            answer: Err(r),
        },
    }
}

#[cfg(test)]
mod tests {
    use super::*;
    use link_state::{Settings, set_up};
    use packet::{HANDSHAKE, NONCE};
    use refusal::Refusal;

    // Four bytes from byte 12 on.
    fn write(buf: &mut [u8]) {
        let mut next = 1u8;
        for b in buf.iter_mut().skip(12).take(4) {
            *b = next;
            next = next.wrapping_add(1);
        }
    }

    #[test]
    fn control_step_sends_what_a_closure_writes(rt: HostRuntime) {
        let set = Settings {
            server: false,
            allows: false,
            lowest: 0,
            padded: false,
            cipher: false,
            only: false,
        };
        let Ok(link) = set_up(set) else {
            assert!(rt; false, "no link");
            return;
        };
        let mut buf = [165u8; 22];
        let refused = control_step(link, &mut buf, HANDSHAKE, false, 0, 4, |b| write(b));
        assert!(rt;
            refused.answer == Err(Refusal::TypeNotAllowed),
            "the refusal"
        );
        assert!(rt; refused.link.stage == link.stage, "the link");
        assert!(rt; buf == [165u8; 22], "the buffer");
        let step = control_step(link, &mut buf, NONCE, false, 0, 4, |b| write(b));
        assert!(rt; step.answer == Ok(20), "the answer");
        assert!(rt; step.link.sends == 4_294_967_295, "the next number");
        let packet = [
            20u8, 0, 0, 0, 254, 255, 255, 255, 170, 135, 203, 122, 1, 2, 3, 4, 67, 81, 43, 232,
            165, 165,
        ];
        assert!(rt; buf == packet, "the packet");
    }
}
