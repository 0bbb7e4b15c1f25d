//! A live session: from datagrams to datagrams, tick by tick.
//!
//! Rests on `live_link` for what a tick hears and what is posted, on `live_tally` for reports, on `desk_run` for the two sides that
//! a session is generic over, a desk and a conference, and on `roster_desk` for the desk of a roster.
//! It promises, where a link and a clock tell what comes, that just the letters of the session of `live_spec` are tried, in their
//! order and once each, and what the session comes to; and that letters that don't go end nothing.
#![tactic(auto)]

mod ending;
mod live;
mod sums;
mod tallied;
mod ticks;

pub use live::{LiveEnd, run_live};

#[cfg(test)]
mod tests;
