// Our Ping and our Pong: 8 bytes, an ID.
ghost use Rattle.std.specs.Prelude.{◌≡◌, length};
ghost use Rattle.wire.specs.Bytes.{bytes};
ghost use Rattle.keep_alive_out.specs.KeepAlive.{ping_step, ping_buffer, pong_step, pong_buffer};

use link_state::Link;
use packet::{PING, PONG};
use send_rules::{ControlBody, Step, control_body_step};
use store::put_u64;

#[derive(Clone, Copy)]
struct Id {
    id: u64,
}

impl ControlBody for Id {
    ghost body = { λ what. bytes 8 what.id };

    fn size(&self) -> usize {
        8
    }

    fn put(&self, buf: &mut [u8]) {
        put_u64(buf, 12, self.id);
    }
}

// Our Ping, with an ID that the caller chooses.
pub fn ping_step(link: Link, buf: &mut [u8], id: u64) -> Step
    ensures { (result ≡ ping_step link id (length buf.old))
        × (buf.new ≡ ping_buffer link id buf.old) }
{
    control_body_step(link, buf, PING, link.awaits, id, &Id { id })
}

// Our Pong, with the ID of the Ping that it answers.
pub fn pong_step(link: Link, buf: &mut [u8]) -> Step
    ensures { (result ≡ pong_step link (length buf.old))
        × (buf.new ≡ pong_buffer link buf.old) }
{
    control_body_step(link, buf, PONG, !link.owes, 0, &Id { id: link.owed })
}
