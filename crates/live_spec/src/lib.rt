//! What a live session means: which datagrams are heard in which tick, by what a link and a clock tell, which reports its
//! listeners are sent, what is sent to whom, in order, and what the session comes to.
//!
//! Rests on `session_spec`, of whose sessions a live one is another: datagrams stand in the place of a capture's records. It
//! rests on `udp_edge` for links and clocks, and on `rtcp_pack` for reports.
//! It is a crate of definitions: what its edits get wrong is a definition, and a law or a row refuses it.
#![tactic(auto)]

mod laws;
mod rows;

pub use laws::{datagrams_are_few, letters_stay, recordings_are_heard_alike};
pub use rows::{hearing, sendings};

/// What a live session came to.
#[derive(Clone, Copy, PartialEq, Eq, Debug)]
pub struct LiveSummary {
    /// The ticks of 20 ms.
    pub ticks: u64,
    /// The encoder runs.
    pub runs: u64,
    /// The packets that were to be sent.
    pub packets: u64,
    /// The datagrams that weren't accepted: arrivals of RTP, and packets of RTCP.
    pub refused: u64,
    /// The packets and reports that didn't go.
    pub unsent: u64,
    /// The reports that were to be sent.
    pub reports: u64,
    /// The datagrams that were packets of RTCP.
    pub heard: u64,
}
