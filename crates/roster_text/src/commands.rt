//! What a roster tells.

use g726_bits::Rate;

/// What a talker's payloads are: samples by a companding law of ITU-T G.711, or codes of ITU-T G.726.
#[derive(Clone, Copy, Debug, PartialEq, Eq)]
pub enum Law {
    /// The mu-law: payload type 0, PCMU, of RFC 3551.
    Mu,
    /// The A-law: payload type 8, PCMA, of RFC 3551.
    A,
    /// Codes of ITU-T G.726 at a rate, with a payload type of the talker's own, 96 to 127.
    G726 { rate: Rate, pt: u8 },
}

/// How a member talks.
#[derive(Clone, Copy, Debug, PartialEq, Eq)]
pub struct Talk {
    /// What its payloads are.
    pub law: Law,
    /// The SSRC of its packets (RFC 3550, section 5.1).
    pub ssrc: u32,
}

/// How a member listens: the rate of what it gets, and the heads of its packets (RFC 3550, section 5.1).
#[derive(Clone, Copy, Debug, PartialEq, Eq)]
pub struct Listen {
    pub rate: Rate,
    /// The payload type, 96 to 127.
    pub pt: u8,
    pub ssrc: u32,
    /// The sequence number of the first packet.
    pub first_seq: u16,
    /// The timestamp of the first packet.
    pub first_stamp: u32,
    /// How many ticks of 20 ms a packet carries, 1 to 4.
    pub ticks: u8,
}

/// A member comes or goes.
#[derive(Clone, Copy, Debug, PartialEq, Eq)]
pub enum Command {
    /// A member joins. Without `talk` it sends nothing, and without `listen` it gets nothing.
    Join {
        member: u32,
        talk: Option<Talk>,
        listen: Option<Listen>,
    },
    /// A member leaves.
    Leave {
        member: u32,
    },
}

/// A command with its time in milliseconds after the session's start.
#[derive(Clone, Copy, Debug, PartialEq, Eq)]
pub struct Timed {
    pub at: u32,
    pub command: Command,
}
