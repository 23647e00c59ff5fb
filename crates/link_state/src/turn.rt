// Whose turn it is in the opening, by how many of its packets went over.
ghost use Rattle.std.specs.Prelude.{◌≡◌};
ghost use Rattle.link_state.specs.Turn.{may_send, stage_after};

// Whether the server, or the client, may send the next packet at this stage.
#[tactic(auto, unfolding(crate::specs::Turn::may_send))]
pub fn may_send(server: bool, stage: u8) -> bool
    ensures { result ≡ may_send server stage }
{
    4 <= stage || stage % 2 == u8::from(server)
}

// The stage after one more packet.
#[tactic(auto, unfolding(crate::specs::Turn::stage_after))]
pub fn stage_after(stage: u8) -> u8
    ensures { result ≡ stage_after stage }
{
    if stage < 4 { stage + 1 } else { stage }
}
