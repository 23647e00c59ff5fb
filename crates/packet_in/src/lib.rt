// Framing: what stands at the front of lent bytes, from a packet's length to its checksum, and where its body is; on a
// padded link with the words before it and the zeros behind.
//
// `frame` is the one call. Nothing here reads a body or changes a link, and no byte is copied: the answer, `packet::Arrival`,
// names the body by its place, and `packet::body` hands it back. What a link makes of a packet is in the crate `link`.
#![tactic(auto)]

mod framing;

pub use framing::frame;
