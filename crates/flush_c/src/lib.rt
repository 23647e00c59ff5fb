// The C interface of a link's flush: one exported function, which wraps one call of the library and has its contract.
//
// The answer passes as a refusal and a size, laid out as that of a send call. Nothing here decides anything: what a
// call answers is said by the crate `flush`. The type that matters is the `Link` of crate link_state, which the caller
// keeps and lends.
#![tactic(auto)]

mod flushing;

pub use flushing::relay_flush;

// How many bytes the words take at the front of the buffer; or, where refusal is not 0, the refusal's number, and then
// the size is 0 and no byte was written.
// Kept: send_c's RelaySent under another name: send_c is a static library, on which no crate may stand, and a crate of
// its own for two numbers is no plainer.
#[repr(C)]
#[derive(Clone, Copy)]
pub struct RelayFlushed {
    pub refusal: u8,
    pub size: usize,
}
