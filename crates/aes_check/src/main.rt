// The cipher, for the records on standard input: operation (1; 1 enciphers, 2 deciphers), key (32), vector (16), the
// first call's length (4), a length (4) and so many bytes. Two calls go over the bytes: one on as many as the first
// call was to have, or on all, and one on the rest, with the vector that the first handed back. Each has its line.
// What exceeds the buffer of this program ends it.
#![tactic(auto)]

mod calls;
mod print;

use std::io;

fn main(rt: HostRuntime) -> io::Result<()> {
    let mut space = [0u8; 65536];
    let mut input = rt.reader();
    for _ in 0..u64::MAX {
        if !calls::record(&mut input, &rt, &mut space)? {
            break;
        }
    }
    Ok(())
}
