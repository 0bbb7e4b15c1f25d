//! What the program `bridge` does, as calls over any ends.
//!
//! Rests on `program_edge` for the words, on `session_edge` for the lines, on `edge_io` for its ends, on `roster_text` for rosters,
//! on `desk_run` with a roster's desk and a Book for the session, on `desk_shared` for a session beside workers, and on `demo_gen` for
//! the demo sessions. It promises of [`alone`], [`shared`] and [`demo`] the status for what they are given, exactly, and what stands
//! on every end after each; of [`shared`] it promises no return.
#![tactic(auto)]

mod beside;
mod calls;
mod demos;
mod forms;
mod status;
mod steps;
mod texts;

pub use beside::shared;
pub use calls::{alone, report};
pub use demos::demo;
pub use status::Status;

#[cfg(test)]
mod demo_tests;
#[cfg(test)]
mod tests;
