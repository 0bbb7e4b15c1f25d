//! A session on one thread: from a capture's octets to the answer's, tick by tick.
//!
//! It stands on `rtp_dump` for the capture and the answer, on `session_spec` for what a session means, and on two sides
//! that it is generic over: a desk, which has the talkers' lines, and a conference, which encodes. The Book of `tick_core`
//! is such a conference.
//! It promises, for whatever ends a run: what then stands on the sink, and what was taken of the source.
#![tactic(auto)]

mod book_side;
mod hearing;
mod leftovers;
mod run;
mod session;
mod sides;
mod stops;
mod ticks;
mod writing;
mod written;

pub use leftovers::sum_up;
pub use run::{RunEnd, run_alone, run_session};
pub use sides::{Audience, Conference, DeskSide};
pub use stops::Stop;
pub use writing::{PACKET_LEN, spell};

#[cfg(test)]
mod tests;
