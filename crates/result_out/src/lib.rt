// The result message: its writers, for a payload and for an error.
//
// The body goes straight into the lent part of a packet buffer. Its size is known before the first store, and a refusal
// leaves every byte alone. No reqResultHeader and no old error is ever written: an error is a reqError.
#![tactic(auto)]

mod error;
mod payload;

pub use error::{error_size, write_error};
pub use payload::{payload_size, write_payload};
