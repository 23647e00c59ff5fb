// What the programs share that run stored inputs: records are read from standard input, and text is printed.
//
// `each_record` runs a step until it finds no record; the programs have that loop themselves. What is read and printed
// is the world's, so nothing is promised of it but what is refused. No crate of the library stands on this one.
#![tactic(auto)]

mod printing;
mod reading;

pub use printing::{hexadecimal, refused, sum};
pub use reading::{array, each_record, fill, fill_front, front};
