// What the conference core means, before any of it is written: the feed of joins, leaves, closes, collects and cuts, each
// listener's mixes, encoder and packets, the different triples of each tick, the machine of claims and publications, and
// what a cut keeps of all that was done before it.
//
// Rests on g726_codec (rates, states, triples), talk_mix (a tick's talkers and a member's mix), pack3551 and rtp_head.
// Promises: laws, each the contract of a function with an empty body in `laws`, and in `rows` what the checker computes.
// It is a crate of definitions: what its edits get wrong is a definition, and a law or a row refuses it.
#![tactic(auto)]

mod laws;
mod rows;

use g726_bits::Rate;
use g726_codec::{EncState, Triple};
pub use laws::{
    alone_goes_on, bases_are_enough, closes_have_limits, core_holds, heard_is_alone,
    listeners_of_a_tick, packets_of_a_listener, packets_of_a_tick, packets_stay,
    payloads_depend_on_mixes, refusals_change_nothing, triples_are_told_apart, twins_go_on,
    waits_for_one_run,
};
use pack3551::Bundle;
pub use rows::{
    bundles, cuts, first_sample, leave_while_out, pipelined, refused_entries, refused_results,
    sessions, silent_sessions,
};
use rtp_head::Head;
use talk_mix::Tick;

/// What a listener asks for at its join.
///
/// `rate` is the rate that its packets are encoded at, `pt` (at most 127) their RTP payload type, `ssrc` their source.
/// Its first packet has the sequence number `first_seq` and the timestamp `first_stamp` (RFC 3550, section 5.1).
/// Each of its packets carries the payloads of `ticks` ticks, 1 to 4 of them (0 counts as 1).
#[derive(Clone, Copy, PartialEq, Eq, Debug)]
pub struct JoinSpec {
    pub member: u32,
    pub rate: Rate,
    pub pt: u8,
    pub ssrc: u32,
    pub first_seq: u16,
    pub first_stamp: u32,
    pub ticks: u8,
}

/// One entry of a conference's feed.
#[derive(Clone, Copy)]
pub enum Entry {
    /// A listener came.
    Join(JoinSpec),
    /// The listener of this number went.
    Leave(u32),
    /// A tick was closed with these talkers.
    Close(Tick),
    /// The packets of the next tick were handed out.
    Collect,
    /// What was collected is forgotten, all but what later packets need.
    Cut,
    /// Nothing but collects comes after it.
    End,
}

/// What is to be run at a tick: a triple of rate, state and mix. Ticks are numbered by closes from 0.
#[derive(Clone, Copy, PartialEq, Eq)]
pub struct Task {
    pub tick: u64,
    pub triple: Triple,
}

/// How far the run of a task has come.
#[derive(Clone, Copy, PartialEq, Eq, Debug)]
pub enum Stage {
    /// It has a number, and nobody works at it.
    Waiting,
    /// It was claimed.
    Out,
    /// Its result is there.
    Finished,
}

/// What a cut keeps of a listener.
///
/// `from` ticks were closed before it came, and it has heard `ticks` ticks since; `is_here` says whether it is still
/// present. `state` is that of its encoder after all of them, and `pending` are the payloads that no packet has carried.
#[derive(Clone, Copy)]
pub struct Stay {
    pub spec: JoinSpec,
    pub from: u64,
    pub is_here: bool,
    pub ticks: u64,
    pub state: EncState,
    pub pending: Bundle,
}

/// One packet to one listener: the G.726 of up to four ticks of 20 ms behind an RTP head.
#[derive(Clone, Copy, PartialEq, Eq)]
pub struct Packet {
    pub member: u32,
    pub head: Head,
    pub payload: Bundle,
}
