//! Who was heard, tick by tick.
ghost use Rattle.std.specs.Prelude.{◌≡◌, ◌++◌, ◌<◌, length, map, slice_get, Some, OnOk, IfOk};
ghost use Rattle.session_account.specs.Speaking.{speaks, hears, seated_by, silent, muted, unheard, after_tick};

use crate::counts::{Crowd, more};
use edge_io::Memory;
use roster_text::{Command, Roster};
use std::alloc::Global;
use std::marker::Model;
use talk_mix::Tick;

/// A member that talks, and in how many ticks it was heard.
#[derive(Clone, Copy, Debug, PartialEq, Eq)]
pub struct Talker {
    pub member: u32,
    /// The SSRC of its packets.
    pub ssrc: u32,
    /// The ticks in which it was one of those who are heard.
    pub heard: u64,
}

impl Talker {
    /// Counts a tick, if the talker is heard in it. `Memory` where 64 bits can't count on.
    fn hear(&mut self, tick: &Tick) -> Result<(), Memory>
        ensures counts { OnOk result (self.new ≡ hears tick.now self.old) }
        ensures same { unheard self.new ≡ unheard self.old }
    {
        if speaks(tick, self.member) {
            more(&mut self.heard, 1)?;
        }
        Ok(())
    }
}

/// Whether a member is heard in a tick.
fn speaks(tick: &Tick, member: u32) -> bool
    ensures { result ≡ speaks member tick.now }
{
    for i in 0..tick.len() {
        if tick.talker(i).0 == member {
            return true;
        }
    }
    false
}

/// The roster's talkers, each with the ticks in which it was heard, and the ticks by how many were heard in them.
#[derive(Drop)]
pub struct Voices {
    talkers: Vec<Talker>,
    crowd: Crowd,
}

impl Model for Voices {
    ghost use Rattle.session_account.specs.Speaking.{Spoken};

    ghost Value = { Spoken };

    ghost view = { λ v. record { talkers = v.talkers.items; crowd = v.crowd } };
}

impl Voices {
    /// The roster's talkers, before the first tick. `Memory` where there was none.
    pub fn new(alloc: Global, roster: &Roster) -> Result<Voices, Memory>
        ensures { IfOk result (λ voices. voices ≡ silent roster.now.timed) }
    {
        let mut talkers = Vec::new(alloc);
        for i in 0..roster.len() {
            seat(&mut talkers, roster.timed(i).command)?;
        }
        Ok(Voices {
            talkers,
            crowd: Crowd::none(),
        })
    }

    /// Counts a tick that ends. `Memory` where 64 bits can't count on; then the talkers are the same, and nothing is said of the counts.
    pub fn note(&mut self, tick: &Tick) -> Result<(), Memory>
        ensures counts { OnOk result (self.new ≡ after_tick tick.now self.old) }
        ensures same_talkers { muted self.new ≡ muted self.old }
    {
        self.crowd.note(tick.len())?;
        hear_all(&mut self.talkers, tick)
    }

    /// How many talkers the roster has.
    pub fn len(&self) -> usize
        ensures { result ≡ length self.now.talkers }
    {
        self.talkers.len()
    }

    /// The talker at place `i`, counted from 0.
    pub fn talker(&self, i: usize) -> Talker
        requires { i < length self.now.talkers }
        ensures { slice_get self.now.talkers i ≡ Some result }
    {
        self.talkers[i]
    }

    /// The ticks by how many were heard in them.
    pub fn crowd(&self) -> Crowd
        ensures { result ≡ self.now.crowd }
    {
        self.crowd
    }
}

/// Gives a member that joins to talk its place.
fn seat(talkers: &mut Vec<Talker>, command: Command) -> Result<(), Memory>
    ensures { OnOk result (talkers.new.items ≡ talkers.old.items ++ seated_by command) }
{
    let Command::Join {
        member,
        talk: Some(talk),
        ..
    } = command
    else {
        return Ok(());
    };
    talkers.push(Talker {
        member,
        ssrc: talk.ssrc,
        heard: 0,
    })?;
    Ok(())
}

/// Counts a tick for each talker.
fn hear_all(talkers: &mut Vec<Talker>, tick: &Tick) -> Result<(), Memory>
    ensures counts { OnOk result (talkers.new.items ≡ map (hears tick.now) talkers.old.items) }
    ensures same { map unheard talkers.new.items ≡ map unheard talkers.old.items }
{
    for i in 0..talkers.len() {
        talkers[i].hear(tick)?;
    }
    Ok(())
}
