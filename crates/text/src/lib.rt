// The text form of RPC errors: a length, the bytes, and zeros to a multiple of 4; its definition, and its reader.
//
// The call is total: a text that is cut or malformed is a refusal. Nothing here looks at what the bytes of a text mean. The
// type that matters is `Text`, what reading finds. Writing is in the crate `text_out`.
#![tactic(auto)]

mod read;

pub use read::read_text;

// A text of len bytes from byte at on, with next past its zeros.
#[derive(Clone, Copy)]
pub struct Text {
    pub at: usize,
    pub len: usize,
    pub next: usize,
}
