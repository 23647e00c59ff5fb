// What a link sends first: its Nonce.
//
// `nonce_step` takes a link by value and a lent buffer, and hands the link back beside the answer: the packet's size,
// with the packet at the buffer's front, or a refusal, with the buffer as it was. A send never closes a link. The
// caller gives time, random bytes and the point of its key agreement. The type that matters is `Step`, of the crate
// `send_rules`.
#![tactic(auto)]

mod nonce;

pub use nonce::nonce_step;

// What the caller draws for a Nonce: the random bytes, and the card's point, which is written where the cipher is
// offered or taken.
#[derive(Clone, Copy)]
pub struct Drawn {
    pub random: [u8; 16],
    pub point: [u8; 32],
}
