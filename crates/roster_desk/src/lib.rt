//! The desk's side of a session: a roster's commands, handed out tick by tick, and the lines of the members that talk.
//!
//! It stands on `roster_text` for rosters, on `session_spec` for what a tick's commands are, on `desk` for the lines, and on
//! `desk_run` for what a session asks of a desk.
//! It promises that in each tick just that tick's commands are applied, in their order and once each: to the desk, and to
//! the conference where a listener joins or leaves.
#![tactic(auto)]

mod laws;
mod plan;
mod serving;
mod telling;

pub use laws::joiner_is_no_talker;
pub use serving::RosterDesk;

#[cfg(test)]
mod plan_tests;
#[cfg(test)]
mod tests;
