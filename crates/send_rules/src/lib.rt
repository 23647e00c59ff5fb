// Rules that every send shares, whatever its body: which refusals come before the body, and the link after a packet.
//
// Nothing here closes a link. `control_body_step` sends a packet of the link itself, around a `ControlBody` of its
// caller's, and `control_step` around what a closure writes; a message has refusals of its own between `check_send` and
// the size. The type that matters is `Step`. What each send writes is in the crates `nonce_out`, `handshake_out`,
// `keep_alive_out` and `message_out`.
#![tactic(auto)]

mod allow;
mod closure;
mod control;

pub use allow::{check_send, control_answer, sent};
pub use closure::control_step;
pub use control::{ControlBody, control_body_step};
use link_state::Link;
use refusal::Refusal;

// The link after a send call, and the answer.
#[derive(Clone, Copy)]
pub struct Step {
    pub link: Link,
    pub answer: Result<usize, Refusal>,
}
