// The body of a message, at the front of what is lent for it.
ghost use Rattle.std.specs.Prelude.{◌≡◌, length};
ghost use Rattle.body.specs.Written.{bytes_after};
ghost use Rattle.message_out.specs.Outgoing.{body_of};
ghost use Rattle.message_out.specs.Parts.{body_answer};

use crate::Outgoing;
use cancel_out::{write_cancel, write_fin};
use invoke_out::write_invoke;
use refusal::Refusal;
use result_out::{write_error, write_payload};

// Writes the body at the front of d, or refuses it and leaves d as it is. A type that we never write has no body.
pub(crate) fn write_body(d: &mut [u8], what: Outgoing, payload: &[u8]) -> Result<usize, Refusal>
    ensures { (result ≡ body_answer what payload.now (length d.old))
        × (d.new ≡ bytes_after result d.old (body_of what payload.now)) }
{
    match what {
        Outgoing::Invoke {
            number,
            actor,
            timeout,
            tl2,
        } => write_invoke(d, number, actor, timeout, tl2, payload),
        Outgoing::Cancel(number) => write_cancel(d, number),
        Outgoing::Payload(number) => write_payload(d, number, payload),
        Outgoing::Error { number, code } => write_error(d, number, code, payload),
        Outgoing::ClientFin | Outgoing::ServerFin | Outgoing::Unknown(_) => write_fin(d),
    }
}
