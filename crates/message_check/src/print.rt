// Text on standard output.
use std::fmt::Display;
use std::io;

// The value, or a dash where there is none.
pub(crate) fn or_dash<T: Display + Drop>(out: &impl Print, value: Option<T>) -> io::Result<()> {
    match value {
        Some(x) => print!(out; "{x}"),
        None => print!(out; "-"),
    }
}
