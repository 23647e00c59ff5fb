// Our Nonce: 60 bytes.
ghost use Rattle.std.specs.Prelude.{◌≡◌, length};
ghost use Rattle.std.proofs.lemmas.List.Edits.{sets};
ghost use Rattle.link_cipher.specs.Offered.{sent_point};
ghost use Rattle.nonce_out.specs.Nonce.{version_of, nonce_head, our_nonce, nonce_step, nonce_buffer};

use crate::Drawn;
use link_cipher::{encryption, key_id, offers_or_takes};
use link_state::{Link, Moment, OUR_VERSION};
use packet::NONCE;
use send_rules::{ControlBody, Step, control_body_step};
use store::{put_u8, put_u16, put_u32};
use store_bytes::copy;

// The version that we write: a server's is no higher than the client's.
#[tactic(auto, unfolding(crate::specs::Nonce::version_of))]
fn version(link: Link) -> u8
    ensures { result ≡ version_of link }
{
    if link.set.server {
        link.version.min(OUR_VERSION)
    } else {
        OUR_VERSION
    }
}

// The DH point that we write.
#[tactic(auto, unfolding(link_cipher::specs::Offered::sent_point))]
fn point(link: Link, card: [u8; 32]) -> [u8; 32]
    ensures { result ≡ sent_point link card }
{
    if offers_or_takes(link) { card } else { [0; 32] }
}

// KeyID, encryption, version, flags and time.
fn put_fields(buf: &mut [u8], keyid: u32, encryption: u8, version: u8, time: u32)
    ensures { buf.new ≡ sets buf.old 12 (nonce_head keyid encryption version time) }
{
    put_u32(buf, 12, keyid);
    put_u8(buf, 16, encryption);
    put_u8(buf, 17, version);
    put_u16(buf, 18, 0);
    put_u32(buf, 20, time);
}

// The body, from byte 12 of the buffer on.
fn put_nonce(buf: &mut [u8], link: Link, drawn: Drawn, moment: Moment)
    ensures { buf.new ≡ sets buf.old 12 (our_nonce link drawn moment) }
{
    put_fields(
        buf,
        key_id(link),
        encryption(link),
        version(link),
        moment.time,
    );
    copy(buf, 24, &drawn.random);
    copy(buf, 40, &point(link, drawn.point));
}

#[derive(Clone, Copy)]
struct Nonce {
    link: Link,
    drawn: Drawn,
    moment: Moment,
}

impl ControlBody for Nonce {
    ghost body = { λ what. our_nonce what.link what.drawn what.moment };

    fn size(&self) -> usize {
        60
    }

    fn put(&self, buf: &mut [u8]) {
        put_nonce(buf, self.link, self.drawn, self.moment);
    }
}

// Our Nonce, with the caller's time, random bytes and point.
pub fn nonce_step(link: Link, buf: &mut [u8], drawn: Drawn, moment: Moment) -> Step
    ensures { (result ≡ nonce_step link drawn moment (length buf.old))
        × (buf.new ≡ nonce_buffer link drawn moment buf.old) }
{
    let what = Nonce {
        link,
        drawn,
        moment,
    };
    control_body_step(link, buf, NONCE, false, 0, &what)
}
