// What a link sends second: its Handshake.
//
// `handshake_step` takes a link by value and a lent buffer, and hands the link back beside the answer: the packet's
// size, with the packet at the buffer's front, or a refusal, with the buffer as it was. A send never closes a link. The
// caller gives both NetPIDs. The types that matter are `Step`, of crate `send_rules`, and `NetPid`, of crate
// `handshake_in`.
#![tactic(auto)]

mod handshake;

pub use handshake::handshake_step;
