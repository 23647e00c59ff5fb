// How many bytes an invoke's body takes.
ghost use Rattle.std.specs.Prelude.{◌≡◌, ◌≤◌, length};
ghost use Rattle.invoke_out.specs.WriteInvoke.{header_bytes, marker_bytes, invoke_size};

use invoke::effective_timeout;

#[tactic(auto, unfolding(crate::specs::WriteInvoke::field_bytes, crate::specs::WriteInvoke::header_bytes, wire::specs::Bytes::bytes))]
pub(crate) fn header_size(actor: Option<i64>, timeout: Option<u32>) -> usize
    ensures { (result ≡ length (header_bytes actor timeout)) × (result ≤ 20) }
{
    match (actor, effective_timeout(timeout)) {
        (None, None) => 0,
        (None, Some(_)) => 12,
        (Some(_), None) => 12,
        (Some(_), Some(_)) => 20,
    }
}

#[tactic(auto, unfolding(crate::specs::WriteInvoke::marker_bytes, wire::specs::Bytes::bytes))]
pub(crate) fn marker_size(tl2: bool) -> usize
    ensures { (result ≡ length (marker_bytes tl2)) × (result ≤ 4) }
{
    if tl2 { 4 } else { 0 }
}

// The size of the whole body.
#[tactic(auto, unfolding(crate::specs::WriteInvoke::invoke_size))]
pub fn invoke_size(actor: Option<i64>, timeout: Option<u32>, tl2: bool, payload: &[u8]) -> usize
    ensures { result ≡ invoke_size actor timeout tl2 payload.now }
{
    8 + header_size(actor, timeout) + marker_size(tl2) + payload.len()
}
