// What a session means, before any of it is run: the desk's events by closed forms over a roster's commands and a
// capture's records, who talks and what their lines say, why an arrival is refused, the feed that a conference gets, the
// tick in which a capture's fault is met, the octets of the answer, and the summary.
//
// Rests on roster_text (commands), rtp_dump (records), rtp_head (packets), g711_law (samples), jitter_line (what a line
// says), talk_726 (what a talker of G.726 says), talk_mix (who is chosen) and conference_spec (the conference).
// It is a crate of definitions: what its edits get wrong is a definition, and a law or a row refuses it.
#![tactic(auto)]

mod laws;
mod rows;

pub use laws::{
    cuts_change_nothing, feed_follows, listeners_change_nothing, packets_are_its_encoders,
    text_stays,
};
pub use rows::{arrivals, arrivals_of_codes, faults_met, moments_that_fall, sessions};
use rtp_head::HeadFault;

/// What became of the octets that arrived for a session.
///
/// The refusals are tested in the order in which they stand here, from `Cut` on. Only `Took` and `Restarted` are
/// accepted.
#[derive(Clone, Copy, PartialEq, Eq, Debug)]
pub enum Arrival {
    /// It was taken, with `new` samples at places of its line that held none.
    Took {
        /// The number of samples that were kept.
        new: u32,
    },
    /// It was taken, and started its line anew: 24 in succession were outside the window before it.
    Restarted,
    /// The packet was longer on the wire than the octets that were kept of it.
    Cut,
    /// It has no head of RTP (RFC 3550, section 5.1).
    Head(HeadFault),
    /// No member that is present talks with its SSRC.
    Unknown,
    /// The payload type isn't the talker's: 0 for PCMU, 8 for PCMA (RFC 3551, section 6), or that of its codes of G.726.
    PayloadType,
    /// It has no payload.
    Empty,
    /// Its payload is longer than 200 ms: 1,600 octets, or 200 for each bit of a code of G.726.
    TooLong,
    /// Its payload is of a talker of G.726, and its octets aren't whole codes.
    Ragged,
    /// It ends at or before its line's position.
    Late,
    /// It ends more than 3,200 samples past its line's position.
    Early,
}

/// What a session came to.
#[derive(Clone, Copy, PartialEq, Eq, Debug)]
pub struct Summary {
    /// The ticks of 20 ms.
    pub ticks: u64,
    /// The encoder runs.
    pub runs: u64,
    /// The packets that were sent.
    pub packets: u64,
    /// The arrivals that weren't accepted.
    pub refused: u64,
}
