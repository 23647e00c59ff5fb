// The stores of an invoke's headers, which begin at byte 8 of the body.
ghost use Rattle.std.specs.Prelude.{◌≡◌};
ghost use Rattle.std.proofs.lemmas.List.Edits.{sets};
ghost use Rattle.invoke_out.specs.WriteInvoke.{header_bytes, marker_bytes};

use header::{DEST_ACTOR, DEST_ACTOR_FLAGS, DEST_FLAGS, TL2_MARKER};
use invoke::{TIMEOUT_BIT, effective_timeout};
use store::put_u32;
use store_signed::put_i64;

pub(crate) fn put_header(d: &mut [u8], actor: Option<i64>, timeout: Option<u32>)
    ensures { d.new ≡ sets d.old 8 (header_bytes actor timeout) }
{
    match (actor, effective_timeout(timeout)) {
        (None, None) => {}
        (None, Some(ms)) => {
            put_u32(d, 8, DEST_FLAGS);
            put_u32(d, 12, TIMEOUT_BIT);
            put_u32(d, 16, ms);
        }
        (Some(id), None) => {
            put_u32(d, 8, DEST_ACTOR);
            put_i64(d, 12, id);
        }
        (Some(id), Some(ms)) => {
            put_u32(d, 8, DEST_ACTOR_FLAGS);
            put_i64(d, 12, id);
            put_u32(d, 20, TIMEOUT_BIT);
            put_u32(d, 24, ms);
        }
    }
}

#[tactic(auto, unfolding(crate::specs::WriteInvoke::marker_bytes))]
pub(crate) fn put_marker(d: &mut [u8], at: usize, tl2: bool)
    ensures { d.new ≡ sets d.old at (marker_bytes tl2) }
{
    if tl2 {
        put_u32(d, at, TL2_MARKER);
    }
}
