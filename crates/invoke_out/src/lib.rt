// The invoke message: its writer.
//
// The body goes straight into the lent part of a packet buffer. Its size is known before the first store, and a refusal
// leaves every byte alone. Nothing here writes a packet's header or checksum. The types are those of the crate `invoke`.
#![tactic(auto)]

mod headers;
mod size;
mod write;

pub use size::invoke_size;
pub use write::write_invoke;
