//! The desk of a session, which is watched: what arrives at it is counted.
ghost use Rattle.std.specs.Prelude.{◌≡◌, []};
ghost use Rattle.roster_desk.specs.Serving.{Begins, Runs};
ghost use Rattle.session_spec.specs.Talkers.{Events, talkers};
ghost use Rattle.session_account.specs.Arriving.{law_at, ssrc_heard};
ghost use Rattle.session_report.specs.Watching.{Counts};

use desk_run::{Audience, DeskSide};
use edge_io::Memory;
use roster_desk::RosterDesk;
use roster_text::{Law, Roster};
use session_account::{Streams, ssrc_of};
use session_spec::Arrival;
use std::alloc::Global;
use talk_mix::Tick;

/// A roster's desk, and what arrived at it. Where a count had no room, nothing is said of the counts any more.
#[derive(Drop)]
pub(crate) struct Watching {
    pub(crate) desk: RosterDesk,
    pub(crate) streams: Streams,
    pub(crate) lost: bool,
}

impl Watching {
    /// A desk at which nothing has happened, with all commands of a roster ahead. Takes no memory.
    pub(crate) fn new(alloc: Global, roster: Roster) -> Watching
        ensures plan { result.desk.plan.timed ≡ roster.timed }
        ensures begins { Begins result.desk [] × Counts result [] }
    {
        Watching {
            desk: RosterDesk::new(alloc, roster),
            streams: Streams::new(alloc),
            lost: false,
        }
    }

    /// How somebody talks with the SSRC of a packet, if it is whole and has a head.
    fn law_of(&self, plen: u16, octets: &[u8]) -> Option<Law>
        ensures { (h : Events) → Runs self.now.desk h → result ≡ law_at (ssrc_heard plen octets.now) (talkers h) }
    {
        match ssrc_of(plen, octets) {
            Some(ssrc) => self.desk.law_on(ssrc),
            None => None,
        }
    }
}

impl DeskSide for Watching {
    ghost plan = { λ w. w.desk.plan.timed };

    ghost begins = { λ w h. Begins w.desk h × Counts w h };

    ghost stands = { λ w h. Runs w.desk h × Counts w h };

    fn commands<A: Audience>(
        &mut self,
        alloc: Global,
        tick: u32,
        audience: &mut A,
    ) -> Result<(), Memory> {
        self.desk.commands(alloc, tick, audience)
    }

    /// Lets the desk take what arrived, and counts it.
    fn arrive(&mut self, plen: u16, octets: &[u8]) -> Arrival {
        let law = self.law_of(plen, octets);
        let arrival = self.desk.arrive(plen, octets);
        if self.streams.note(law, arrival, plen, octets).is_err() {
            self.lost = true;
        }
        arrival
    }

    fn frames(&mut self) -> Tick {
        self.desk.frames()
    }

    fn refused(&self) -> u64 {
        self.desk.refused()
    }
}
