//! A roster without a fault.

ghost use Rattle.std.specs.Prelude.{◌≡◌, ◌<◌, ◌≤◌, Some, length, slice_get};
ghost use Rattle.roster_text.specs.Roster.{IsRoster, ticks_of};
ghost use Rattle.roster_text.specs.Answering.{IsKept};

use crate::commands::Timed;
use std::marker::Model;

/// A roster without a fault: its commands in their order, and the time of its end.
///
/// Contracts see both, and that some text spells them.
#[derive(Debug, Drop)]
pub struct Roster {
    timed: Vec<Timed>,
    end: u32,
}

impl Model for Roster {
    ghost use Rattle.roster_text.specs.Roster.{Told};
    ghost use Rattle.roster_text.specs.Answering.{IsKept};

    ghost Value = { Told };

    ghost view = { λ r. record { timed = r.timed.items; end = r.end } };

    ghost invariant = { λ r. IsKept (record { timed = r.timed.items; end = r.end }) };
}

impl Roster {
    /// The roster of these commands and this end, which some text spells.
    pub(crate) fn of(timed: Vec<Timed>, end: u32) -> Roster
        requires { IsKept (record { timed = timed.items; end = end }) }
        ensures { result ≡ record { timed = timed.items; end = end } }
    {
        Roster { timed, end }
    }

    /// How many commands there are. Takes no memory.
    pub fn len(&self) -> usize
        ensures count { result ≡ length self.now.timed }
        ensures lawful { IsRoster self.now }
    {
        self.timed.len()
    }

    /// The command at place `i`, counted from 0, with its time. Takes no memory.
    pub fn timed(&self, i: usize) -> Timed
        requires { i < length self.now.timed }
        ensures { slice_get self.now.timed i ≡ Some result }
    {
        self.timed[i]
    }

    /// The time of the end in milliseconds. Takes no memory.
    pub fn end(&self) -> u32
        ensures value { result ≡ self.now.end }
        ensures bound { result ≤ 86400000 }
        ensures lawful { IsRoster self.now }
    {
        self.end
    }

    /// The number of ticks of 20 ms up to the end, the last of them perhaps not whole. Takes no memory.
    pub fn ticks(&self) -> u32
        ensures value { result ≡ ticks_of self.now.end }
        ensures bound { result ≤ 4320000 }
    {
        (self.end + 19) / 20
    }
}
