//! A roster's plan and the desk that it serves.
ghost use Rattle.std.specs.Prelude.{◌≡◌, []};
ghost use Rattle.session_spec.specs.Talkers.{Events, talkers, law_on};
ghost use Rattle.roster_desk.specs.Serving.{Begins, Runs};

use crate::plan::Plan;
use crate::telling::tell;
use desk::Desk;
use desk_run::{Audience, DeskSide};
use edge_io::Memory;
use roster_text::{Law, Roster};
use session_spec::Arrival;
use std::alloc::Global;
use talk_mix::Tick;

/// A roster's commands, of which those of each tick are applied when it begins, and the desk that they are applied to.
#[derive(Drop)]
pub struct RosterDesk {
    plan: Plan,
    desk: Desk,
}

impl RosterDesk {
    /// A desk at which nobody talks yet, with all commands of a roster ahead. Takes no memory.
    pub fn new(alloc: Global, roster: Roster) -> RosterDesk
        ensures plan { result.plan.timed ≡ roster.timed }
        ensures begins { Begins result [] }
    {
        RosterDesk {
            plan: Plan::new(roster),
            desk: Desk::new(alloc),
        }
    }

    /// How the present talker with this SSRC talks, if there is one. Takes no memory.
    pub fn law_on(&self, ssrc: u32) -> Option<Law>
        ensures { (h : Events) → Runs self.now h → result ≡ law_on ssrc (talkers h) }
    {
        self.desk.law_on(ssrc)
    }
}

impl DeskSide for RosterDesk {
    ghost plan = { λ d. d.plan.timed };

    ghost begins = { λ d h. Begins d h };

    ghost stands = { λ d h. Runs d h };

    /// Applies the commands of a tick: to the desk, and to the conference those of listeners.
    fn commands<A: Audience>(
        &mut self,
        alloc: Global,
        tick: u32,
        audience: &mut A,
    ) -> Result<(), Memory> {
        'commands: loop {
            match self.plan.next(tick) {
                Some(command) => {
                    tell(command, audience)?;
                    self.desk.apply(alloc, command)?;
                }
                None => return Ok(()),
            }
        }
    }

    fn arrive(&mut self, plen: u16, octets: &[u8]) -> Arrival {
        self.desk.arrive(plen, octets)
    }

    fn frames(&mut self) -> Tick {
        self.desk.frames()
    }

    fn refused(&self) -> u64 {
        self.desk.refused()
    }
}
