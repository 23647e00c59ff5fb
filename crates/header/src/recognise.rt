// Recognition of a header by its value, for the side that reads it.
ghost use Rattle.std.specs.Prelude.{◌≡◌};
ghost use Rattle.header.specs.Headers.{request_kind, answer_kind, kind_of};

use crate::values::{
    DEST_ACTOR, DEST_ACTOR_FLAGS, DEST_FLAGS, DIAGONAL, DIAGONAL_TARGETS, NUMBERED_ERROR,
    REQ_ERROR, REQ_RESULT_HEADER, TL2_MARKER, WRAPPED_ERROR,
};
use crate::{Kind, Side};

#[tactic(auto, unfolding(crate::specs::Headers::request_kind))]
fn request_kind(value: u32) -> Kind
    ensures { result ≡ request_kind value }
{
    match value {
        DEST_FLAGS => Kind::Flags,
        DEST_ACTOR => Kind::Actor,
        DEST_ACTOR_FLAGS => Kind::ActorFlags,
        DIAGONAL | DIAGONAL_TARGETS => Kind::Diagonal,
        TL2_MARKER => Kind::Marker,
        _ => Kind::Other,
    }
}

#[tactic(auto, unfolding(crate::specs::Headers::answer_kind))]
fn answer_kind(value: u32) -> Kind
    ensures { result ≡ answer_kind value }
{
    match value {
        REQ_RESULT_HEADER => Kind::ResultHeader,
        REQ_ERROR | WRAPPED_ERROR => Kind::Error,
        NUMBERED_ERROR => Kind::NumberedError,
        _ => Kind::Other,
    }
}

// The header that has this value at this side.
#[tactic(auto, unfolding(crate::specs::Headers::kind_of))]
pub fn kind_of(side: Side, value: u32) -> Kind
    ensures { result ≡ kind_of side value }
{
    match side {
        Side::Server => request_kind(value),
        Side::Client => answer_kind(value),
    }
}
