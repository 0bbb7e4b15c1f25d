//! The desk of a session: who is present and talks, and a jitter line for each of them.
//!
//! Commands of a roster let talkers join and leave, packets arrive and are put to their talker's line or refused, and
//! each 20 ms a frame is pulled from every line and the voices that are heard are chosen.
//!
//! It stands on `session_spec` for what all this means, on `rtp_head` for packets, `g711_law` for samples, `jitter_line`
//! for lines, `talk_726` for lines of codes, and `talk_mix` for the choice. It promises for each list of events that whatever a desk is
//! asked after them is answered just as the definitions say of these events.
#![tactic(auto)]

mod channel;
mod ear;
mod lines;
mod samples;

pub use lines::Desk;

#[cfg(test)]
mod tests;
