//! Octets that are compared with an answer as it is made, record by record.
ghost use Rattle.std.specs.Prelude.{◌≡◌, ◌<◌, ◌≤◌, ◌+◌, ◌++◌, ◌∷◌, [], ℕ, List, None, Some, ◌≢◌, length};
ghost use Rattle.conference_spec.specs.declared.Packet.{Packet};
ghost use Rattle.conference_spec.specs.Packets.{Sending};
ghost use Rattle.desk_run.specs.Handing.{packet_text, IsSendable};
ghost use Rattle.audit_check.specs.Difference.{common, part_within, Judges};
ghost use Rattle.audit_check.specs.Sendings.{sent_in};
ghost use Rattle.audit_check.specs.Comparing.{Compared, HasCompared};

use crate::spelling::{RECORD_LEN, spell_record};
use crate::status::{Part, Where};
use conference_spec::Packet;
use edge_io::Octets;
use tick_core::Packets;

/// The line and the file head of each answer.
const HEAD: &[u8; 39] = b"#!rtpplay1.0 0.0.0.0/0\n\0\0\0\0\0\0\0\0\0\0\0\0\0\0\0\0";

/// Where octets first differ from an answer: the octet, counted from 0, the part, and the packet, if it lies in one.
#[derive(Clone, Copy, Debug, PartialEq, Eq)]
pub struct Difference {
    pub at: u64,
    pub part: Part,
    pub place: Option<Where>,
}

/// Octets, and how far they are the answer as it was made so far.
#[derive(Drop)]
pub(crate) struct Compare {
    /// The octets.
    out: Octets,
    /// How many of them are the answer's.
    at: usize,
    /// How many packets these hold.
    packets: u64,
    /// How many ticks were handed out.
    ticks: u32,
    /// Where they first differ, if they do.
    found: Option<Difference>,
}

impl Compare {
    /// Octets, compared with the line and the file head of an answer.
    pub(crate) fn new(out: Octets) -> Compare
        ensures out { result.out ≡ out }
        ensures ticks { result.ticks ≡ 0 }
        ensures compared { Compared result [] }
    {
        let len = out.as_slice().len();
        let at = common(out.as_slice(), HEAD);
        Compare {
            out,
            at,
            packets: 0,
            ticks: 0,
            found: in_file_head(at, len),
        }
    }

    /// Compares a packet that is sent with the tick after those that were handed out.
    pub(crate) fn take(&mut self, packet: &Packet)
        requires begun { HasCompared self.old }
        requires early { self.old.ticks ≤ 4320000 }
        requires lawful { packet.now.head.pt ≤ 127 }
        ensures out { self.new.out ≡ self.old.out }
        ensures ticks { self.new.ticks ≡ self.old.ticks }
        ensures compared { (ss : List Sending) → Compared self.old ss →
            Compared self.new (ss ++ record { tick = self.old.ticks; packet = packet.now } ∷ []) }
    {
        if self.found.is_none() {
            let mut text = [0; RECORD_LEN];
            let len = spell_record(self.ticks, packet, &mut text);
            self.meet(&text[..len], packet.member);
        }
    }

    /// Compares the packets of the next tick.
    pub(crate) fn take_tick(&mut self, packets: &Packets)
        requires begun { HasCompared self.old }
        requires early { self.old.ticks < 4320000 }
        requires sendable { IsSendable packets.now.packets }
        ensures out { self.new.out ≡ self.old.out }
        ensures ticks { self.new.ticks ≡ self.old.ticks + 1 }
        ensures compared { (ss : List Sending) → Compared self.old ss →
            Compared self.new (ss ++ sent_in self.old.ticks packets.now.packets) }
    {
        for i in 0..packets.len() {
            self.take(&packets.packet(i));
        }
        self.ticks += 1;
    }

    /// Compares the record of the next packet, which goes to this member.
    fn meet(&mut self, text: &[u8], member: u32)
        requires begun { HasCompared self.old }
        requires same { self.old.found ≡ None }
        requires some { 0 < length text.now }
        ensures out { self.new.out ≡ self.old.out }
        ensures ticks { self.new.ticks ≡ self.old.ticks }
        ensures compared { (ss : List Sending) (packet : Packet) → Compared self.old ss → packet.member ≡ member →
            packet_text self.old.ticks packet ≡ text.now → Compared self.new (ss ++ record { tick = self.old.ticks; packet = packet } ∷ []) }
    {
        let rest = &self.out.as_slice()[self.at..];
        let equal = common(rest, text);
        let part = part_at(equal, rest.len());
        self.at += equal;
        if equal == text.len() {
            self.packets += 1;
        } else {
            self.found = Some(Difference {
                at: self.at as u64,
                part,
                place: Some(Where {
                    packet: self.packets,
                    tick: u64::from(self.ticks),
                    member,
                }),
            });
        }
    }

    /// Where the octets first differ from the answer, which was made to its end.
    pub(crate) fn end(&self) -> Option<Difference>
        requires begun { HasCompared self.now }
        ensures judged { (ss : List Sending) → Compared self.now ss → Judges self.now.out ss result }
    {
        if self.found.is_some() {
            return self.found;
        }
        if self.at < HEAD.len() {
            return Some(in_no_packet(self.at, Part::Missing));
        }
        if self.at < self.out.as_slice().len() {
            return Some(in_no_packet(self.at, Part::Extra));
        }
        None
    }
}

/// A first difference that lies in no packet.
fn in_no_packet(at: usize, part: Part) -> Difference
    ensures { result ≡ record { at = at; part = part; place = None } }
{
    Difference {
        at: at as u64,
        part,
        place: None,
    }
}

/// The first difference in the line and the file head, of octets that have so many of them; where these are all, or the octets
/// end there, there is none so far.
fn in_file_head(at: usize, len: usize) -> Option<Difference>
    ensures whole { at ≡ 39 → result ≡ None }
    ensures short { at ≡ len → result ≡ None }
    ensures differs { at ≢ 39 → at ≢ len → result ≡ Some (record { at = at; part = Part.FileHead; place = None }) }
{
    if at == HEAD.len() || at == len {
        return None;
    }
    Some(in_no_packet(at, Part::FileHead))
}

/// The part of a record whose first octets are equal, or what is missing where the octets end there.
fn part_at(equal: usize, left: usize) -> Part
    ensures missing { equal ≡ left → result ≡ Part.Missing }
    ensures within { equal ≢ left → result ≡ part_within equal }
{
    if equal == left {
        return Part::Missing;
    }
    part_within(equal)
}

/// The part of a record in which an octet of it lies.
fn part_within(at: usize) -> Part
    ensures { result ≡ part_within at }
{
    match at {
        0..8 => Part::RecordHead,
        8..20 => Part::RtpHead,
        _ => Part::Payload,
    }
}

/// How many octets two texts have in common from the first one on.
fn common(one: &[u8], other: &[u8]) -> usize
    ensures value { result ≡ common one.now other.now }
    ensures within { result ≤ length one.now }
{
    let len = one.len().min(other.len());
    for i in 0..len {
        if one[i] != other[i] {
            return i;
        }
    }
    len
}
