//! What the program `report` does, as a call over any ends: it says of a session what its summary leaves out.
//!
//! Rests on `desk_run` with a roster's desk and a Book for the session, which are watched while it runs, on `session_account` for the
//! counts and their text, on `roster_text` for rosters, and on `program_edge` and `session_edge` for lines. It promises of [`report`] that
//! each number that it writes is the one that the session's definitions give, in both forms of its text, octet for octet.
#![tactic(auto)]

mod audience;
mod calls;
mod encoding;
mod nowhere;
mod status;
mod steps;
mod watching;
mod words;

pub use calls::{report, tell};
pub use status::ReportStatus;

#[cfg(test)]
mod tests;
