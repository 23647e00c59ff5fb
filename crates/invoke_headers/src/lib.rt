// An invoke's headers, one at a time.
//
// A header is looked for while the four bytes there are a known value; after the TL2 marker none is. A timeout field is
// told here as it stands, 0 too: what it means is said in the crate `invoke`, and the whole body is read in
// `invoke_in`. Nothing here copies a byte. The types that matter are `Headers`, what was said so far, and `Next`.
#![tactic(auto)]

mod fields;
mod one_header;

pub use one_header::next_header;

// What the headers said so far, and where the next one would begin. extra: an extra was read.
// Kept: extra beside timeout: an extra may have no timeout (its mask is 0), and `Option<Option<u32>>` is no plainer.
#[derive(Clone, Copy)]
pub struct Headers {
    pub at: usize,
    pub actor: Option<i64>,
    pub extra: bool,
    pub timeout: Option<u32>,
    pub tl2: bool,
}

// What one header leads to: more headers, or the payload.
// Kept: an enum of its own: `ControlFlow<Headers, Headers>` has its shape, and says less by its names.
#[derive(Clone, Copy)]
pub enum Next {
    More(Headers),
    Done(Headers),
}

// A header's extra, and where it ends.
#[derive(Clone, Copy)]
pub struct Extra {
    pub timeout: Option<u32>,
    pub next: usize,
}
