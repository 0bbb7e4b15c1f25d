//! One talker at the desk.

ghost use Rattle.std.specs.Prelude.{◌≡◌, ◌≤◌, ◌∷◌, IfOk, if◌then◌else◌};
ghost use Rattle.jitter_line.specs.Histories.{History, Pulls, silence};
ghost use Rattle.session_spec.specs.Talkers.{Talker, begins, spoken, payload_type, longest, is_ragged, arrival_by, arrival_of as arrival_then};
ghost use Rattle.desk.specs.Ears.{law_of, Hears};
ghost use Rattle.desk.specs.Channels.{StandsFor, talk_of, way_in, after_way};

use crate::ear::Ear;
use crate::samples::MAX_PAYLOAD;
use edge_io::Memory;
use g726_bits::Frame;
use jitter_line::Put;
use roster_text::{Law, Talk};
use rtp_head::Head;
use session_spec::Arrival;
use std::alloc::Global;

/// A present talker: its number, its SSRC, and its ear, which knows its law.
#[derive(Drop)]
pub(crate) struct Channel {
    pub(crate) member: u32,
    pub(crate) ssrc: u32,
    pub(crate) ear: Ear,
}

impl Channel {
    /// A member that begins to talk.
    pub(crate) fn new(alloc: Global, member: u32, talk: Talk) -> Result<Channel, Memory>
        ensures { IfOk result (λ channel. StandsFor channel (begins member talk)) }
    {
        let ear = Ear::new(alloc, talk.law)?;
        Ok(Channel {
            member,
            ssrc: talk.ssrc,
            ear,
        })
    }

    /// Puts the payload of one of the talker's packets to its ear, or refuses it.
    pub(crate) fn hear(&mut self, head: Head, payload: &[u8]) -> Arrival
        ensures answer { (t : Talker) → StandsFor self.old t → result ≡ arrival_by (way_in t head payload.now) }
        ensures stands { (t : Talker) → StandsFor self.old t → StandsFor self.new (after_way (way_in t head payload.now) t) }
        ensures same_member { self.new.member ≡ self.old.member }
    {
        let law = self.ear.law();
        if head.pt != payload_type(law) {
            return Arrival::PayloadType;
        }
        if payload.is_empty() {
            return Arrival::Empty;
        }
        if payload.len() > longest(law) {
            return Arrival::TooLong;
        }
        if is_ragged(law, payload.len()) {
            return Arrival::Ragged;
        }
        arrival_of(self.ear.put(head.stamp, payload))
    }

    /// Pulls a frame from the ear, or `false` where nothing but silence is said: what stands in `frame` means nothing then.
    pub(crate) fn pull(&mut self, frame: &mut Frame) -> bool
        ensures said { (h : History) → Hears self.old.ear h → (if result then frame.new else silence) ≡ spoken (law_of self.old.ear) h }
        ensures stands { (h : History) → Hears self.old.ear h → Hears self.new.ear (Pulls ∷ h) }
        ensures same_member { self.new.member ≡ self.old.member }
        ensures same_talk { talk_of self.new ≡ talk_of self.old }
    {
        self.ear.pull(frame)
    }
}

/// The payload type of a law: PCMU or PCMA (RFC 3551, section 6), or that of a talker's codes.
fn payload_type(law: Law) -> u8
    ensures { result ≡ payload_type law }
{
    match law {
        Law::Mu => 0,
        Law::A => 8,
        Law::G726 { pt, .. } => pt,
    }
}

/// The most octets of a payload: 200 ms.
fn longest(law: Law) -> usize
    ensures value { result ≡ longest law }
    ensures most { result ≤ 1600 }
{
    match law {
        Law::Mu | Law::A => MAX_PAYLOAD,
        Law::G726 { rate, .. } => 200 * rate.bits() as usize,
    }
}

/// Whether so many octets, which are few, aren't whole codes.
fn is_ragged(law: Law, octets: usize) -> bool
    requires { octets ≤ 1600 }
    ensures { result ≡ is_ragged law octets }
{
    match law {
        Law::Mu | Law::A => false,
        Law::G726 { rate, .. } => 8 * octets % rate.bits() as usize != 0,
    }
}

/// What a line's answer is as the desk's.
fn arrival_of(put: Put) -> Arrival
    ensures { result ≡ arrival_then put }
{
    match put {
        Put::Took { new } => Arrival::Took { new },
        Put::Late => Arrival::Late,
        Put::Early => Arrival::Early,
        Put::Restarted => Arrival::Restarted,
    }
}
