// What a link sends to keep itself alive: Ping and Pong.
//
// Each step takes a link by value and a lent buffer, and hands the link back beside the answer: the packet's size, with
// the packet at the buffer's front, or a refusal, with the buffer as it was. A send never closes a link. The caller
// gives a Ping's ID, the link a Pong's. The type that matters is `Step`, of the crate `send_rules`.
#![tactic(auto)]

mod control;

pub use control::{ping_step, pong_step};
