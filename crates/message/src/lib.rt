// One RPC message: a packet's type and body read into its meaning, for the side that reads.
//
// Nothing here looks at a packet's length, number or checksum, and reading copies no byte: a payload or text is named
// by its place, and `part_of` hands it back. The types that matter are `Message` and `Side` (of the crate `header`).
// The writers are in the crates `invoke_out`, `result_out` and `cancel_out`.
#![tactic(auto)]

mod read;
mod slice;
mod types;

use invoke::Invoke;
pub use read::read_message;
use result::Reply;
pub use slice::part_of;
pub use types::{CANCEL, CLIENT_FIN, INVOKE, OLD_ERROR, RESULT, SERVER_FIN};

// What a body means.
#[derive(Clone, Copy)]
pub enum Message {
    Invoke(Invoke),
    Cancel(i64),
    ClientFin,
    Result(Reply),
    ServerFin,
}
