//! What the program `serve` does, as a call over any ends.
//!
//! Rests on `live_run` for the session, on `udp_edge` for links, clocks and who is sent packets where, on `roster_text` for rosters,
//! on `edge_io` for the shelf and the error stream, and on `session_edge` and `program_edge` for the lines. It promises of
//! [`serve`] the status for what it is given, exactly, and what stands on every end after each.
#![tactic(auto)]

mod files;
mod form;
mod missing;
mod preparing;
mod serving;
mod status;
mod texts;

pub use serving::{report, serve};
pub use status::ServeStatus;

#[cfg(test)]
mod tests;
