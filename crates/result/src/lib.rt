// The result message and the old error message: a query number, and a payload or an error; their readers.
//
// The three error values and the old error message all read to one meaning: number, code, text. Nothing here copies or
// keeps a byte. The types that matter are `Reply`, what a body means, and the `Answer` inside it.
#![tactic(auto)]

mod payload_or_error;
mod read;

pub use read::{read_old_error, read_result};

// A payload (document 01: the rest, or page) of len bytes from byte at of the body on; or an error: its code, and its
// text in the same way.
#[derive(Clone, Copy)]
pub enum Answer {
    Payload { at: usize, len: usize },
    Error { code: i32, at: usize, len: usize },
}

#[derive(Clone, Copy)]
pub struct Reply {
    pub number: i64,
    pub answer: Answer,
}
