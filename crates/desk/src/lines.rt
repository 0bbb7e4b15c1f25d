//! The desk.

ghost use Rattle.std.specs.Prelude.{◌≡◌, ◌≤◌, ◌-◌, ◌^◌, ◌==◌, ◌∷◌, [], List, length, map, min, not, filter, position, take, OnOk, OnErr};
ghost use Rattle.session_spec.specs.Talkers.{Events, Applies, Hears, Ticks, Talker, talkers, arrival, way, given, heard_now, law_on, is_accepted as accepts};
ghost use Rattle.session_spec.specs.Events.{refused};
ghost use Rattle.desk.specs.Channels.{EachStands};
ghost use Rattle.desk.specs.Kept.{members, EachOther};
ghost use Rattle.desk.specs.Standing.{Stands, MayApply, NeedsRoom, IsFree, Seats};
ghost use Rattle.desk.specs.Turning.{HaveTurned};

use crate::channel::Channel;
use edge_io::Memory;
use g726_bits::Frame;
use roster_text::{Command, Law, Talk};
use rtp_head::parse;
use session_spec::Arrival;
use std::alloc::Global;
use std::marker::Model;
use talk_mix::{Tick, choose};

/// Those who are present and talk, each with its line, and how many arrivals weren't accepted.
///
/// Contracts see the lines and the count, and say for which lists of events a desk stands. There is room for a voice of
/// each line.
#[derive(Drop)]
pub struct Desk {
    channels: Vec<Channel>,
    voices: Vec<(u32, Frame)>,
    refused: u64,
}

impl Model for Desk {
    ghost use Rattle.desk.specs.Kept.{Kept, IsSound};

    ghost Value = { Kept };

    ghost view = { λ d. record { channels = d.channels.items; refused = d.refused } };

    ghost invariant = { λ d. IsSound d.channels.items d.voices.items };
}

impl Desk {
    /// A desk at which nobody talks. Takes no memory.
    pub fn new(alloc: Global) -> Desk
        ensures nobody { Stands result [] }
    {
        Desk {
            channels: Vec::new(alloc),
            voices: Vec::new(alloc),
            refused: 0,
        }
    }

    /// Applies a command of the roster: a member that talks gets a line at its join, which goes at its leave.
    ///
    /// # Errors
    ///
    /// `Memory` where there was no memory for a line. Then the desk is as before.
    pub fn apply(&mut self, alloc: Global, command: Command) -> Result<(), Memory>
        requires { MayApply self.old command }
        ensures stands { OnOk result ((h : Events) → Stands self.old h → Stands self.new (Applies command ∷ h)) }
        ensures memory { OnErr result (self.new ≡ self.old) }
        ensures room { OnErr result (NeedsRoom command) }
    {
        match command {
            Command::Join { member, talk, .. } => match talk {
                Some(talk) => self.seat(alloc, member, talk),
                None => Ok(()),
            },
            Command::Leave { member } => {
                self.unseat(member);
                Ok(())
            }
        }
    }

    /// Takes what arrived: `octets`, kept of a packet that had `plen` octets on the wire. Takes no memory.
    ///
    /// It is refused by the first reason that fits, in the order of [`Arrival`], or put to the line of its talker.
    pub fn arrive(&mut self, plen: u16, octets: &[u8]) -> Arrival
        ensures answer { (h : Events) → Stands self.old h → result ≡ arrival (talkers h) plen octets.now }
        ensures stands { (h : Events) → Stands self.old h → Stands self.new (Hears plen octets.now ∷ h) }
    {
        let arrival = hear(&mut self.channels, plen, octets);
        if !is_accepted(arrival) {
            self.refused = self.refused.saturating_add(1);
        }
        arrival
    }

    /// How the present talker with this SSRC talks, if there is one. Takes no memory.
    pub fn law_on(&self, ssrc: u32) -> Option<Law>
        ensures { (h : Events) → Stands self.now h → result ≡ law_on ssrc (talkers h) }
    {
        let place = place_on(&self.channels, ssrc)?;
        Some(self.channels[place].ear.law())
    }

    /// Pulls a frame from every line, and chooses who is heard. Takes no memory.
    pub fn frames(&mut self) -> Tick
        ensures heard { (h : Events) → Stands self.old h → result ≡ heard_now h }
        ensures stands { (h : Events) → Stands self.old h → Stands self.new (Ticks ∷ h) }
    {
        let count = pull_all(&mut self.channels, &mut self.voices);
        choose(&self.voices[..count])
    }

    /// How many arrivals weren't accepted. Takes no memory.
    pub fn refused(&self) -> u64
        ensures count { (h : Events) → Stands self.now h → result ≡ min (refused h) (2 ^ 64 - 1) }
    {
        self.refused
    }

    /// Lets a member that isn't here yet talk.
    fn seat(&mut self, alloc: Global, member: u32, talk: Talk) -> Result<(), Memory>
        requires { IsFree member self.old.channels }
        ensures seated { OnOk result (Seats self.old self.new member talk) }
        ensures memory { OnErr result (self.new ≡ self.old) }
    {
        let channel = Channel::new(alloc, member, talk)?;
        self.voices.push((member, Frame::zero()))?;
        if self.channels.push(channel).is_err() {
            let _voice = self.voices.pop();
            return Err(Memory);
        }
        Ok(())
    }

    /// Takes a member's line away, if it has one.
    fn unseat(&mut self, member: u32)
        ensures channels { self.new.channels ≡ filter (λ channel. not (channel.member == member)) self.old.channels }
        ensures refused { self.new.refused ≡ self.old.refused }
    {
        self.channels.retain(|channel| channel.member != member);
        self.voices.truncate(self.channels.len());
    }
}

/// Whether an arrival was accepted.
fn is_accepted(arrival: Arrival) -> bool
    ensures { result ≡ accepts arrival }
{
    matches!(arrival, Arrival::Took { .. } | Arrival::Restarted)
}

/// Puts what arrived to the line of its talker, or refuses it.
fn hear(channels: &mut Vec<Channel>, plen: u16, octets: &[u8]) -> Arrival
    requires { EachOther (members channels.old.items) }
    ensures answer { (ts : List Talker) → EachStands channels.old.items ts → result ≡ arrival ts plen octets.now }
    ensures stands { (ts : List Talker) → EachStands channels.old.items ts →
        EachStands channels.new.items (map (given (way ts plen octets.now)) ts) }
    ensures same_members { members channels.new.items ≡ members channels.old.items }
{
    let len = usize::from(plen);
    if octets.len() < len {
        return Arrival::Cut;
    }
    let packet = &octets[..len];
    let parsed = match parse(packet) {
        Ok(parsed) => parsed,
        Err(fault) => return Arrival::Head(fault),
    };
    let Some(place) = place_on(channels, parsed.head.ssrc) else {
        return Arrival::Unknown;
    };
    let channel = &mut channels[place];
    channel.hear(parsed.head, &packet[parsed.from..parsed.to])
}

/// The place of the first channel with this SSRC.
fn place_on(channels: &[Channel], ssrc: u32) -> Option<usize>
    ensures { result ≡ position (λ channel. channel.ssrc == ssrc) channels.now }
{
    channels.iter().position(|channel| channel.ssrc == ssrc)
}

/// Pulls a frame from each line. Those that aren't silent are the first voices then, in the order of the lines, and their
/// number is given.
fn pull_all(channels: &mut Vec<Channel>, voices: &mut Vec<(u32, Frame)>) -> usize
    requires { length voices.old.items ≡ length channels.old.items }
    ensures turned { HaveTurned channels.old.items channels.new.items (take result voices.new.items) }
    ensures count { result ≤ length voices.new.items }
    ensures room { length voices.new.items ≡ length channels.new.items }
{
    let mut count = 0;
    for place in 0..channels.len() {
        let channel = &mut channels[place];
        let voice = &mut voices[count];
        if channel.pull(&mut voice.1) {
            voice.0 = channel.member;
            count += 1;
        }
    }
    count
}
