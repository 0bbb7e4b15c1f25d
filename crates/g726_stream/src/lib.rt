//! What the program `g726` does, as calls over any ends: streams of samples to streams of codes, and back.
//!
//! Rests on `g726_codec` and `pack3551` for the codec, and on `edge_io` for its ends. It promises of
//! [`run`] the status for what it is given, exactly, and what is written: octets in, octets out.
#![tactic(auto)]

mod asked;
mod calls;
mod decoding;
mod encoding;
mod samples;
mod status;
mod texts;

pub use asked::Way;
pub use calls::{report, run};
pub use status::Status;

#[cfg(test)]
mod tests;
