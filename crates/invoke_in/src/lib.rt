// The invoke message: its reader.
//
// Number, headers, then the payload, of which nothing is copied or kept. The headers are read in the crate
// `invoke_headers`; the types are those of the crate `invoke`.
#![tactic(auto)]

mod read;

pub use read::read_invoke;
