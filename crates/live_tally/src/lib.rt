//! The listeners' tallies: what each was sent, and which reports are due to whom.
//!
//! Rests on `live_spec`, which says what is due, and on `rtcp_pack` for what a report is. It promises that the tallies of a
//! feed give its reports, in their order and once each, for each feed and each list of packets that they stand for.
#![tactic(auto)]

mod account;
mod due;
mod tallies;

pub use tallies::Tallies;

#[cfg(test)]
mod tests;
