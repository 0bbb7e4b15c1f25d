//! What there is to say of a session beside its summary: counts that go along with it, and the text of a report in two forms.
//!
//! Rests on `session_spec` for what a desk answers and who is heard, on `conference_spec` for who listens, on `indexmap` for what came
//! of each SSRC, and on `rtp_head` for heads. It promises that each count is the one that its definition gives of the events and the
//! feed, and of a report's text each octet.
#![tactic(auto)]

mod cells;
mod counts;
mod forms;
mod laws;
mod report;
mod runs;
mod streams;
mod text;
mod visits;
mod voices;

pub use counts::{Crowd, Torn};
pub use forms::Form;
pub use laws::{refusals_add_up, runs_add_up, ticks_add_up};
pub use report::Report;
pub use runs::Runs;
pub use streams::{Stream, Streams, ssrc_of};
pub use visits::{Listener, Visits};
pub use voices::{Talker, Voices};

#[cfg(test)]
mod tests;
