//! Who listened.
ghost use Rattle.std.specs.Prelude.{◌≡◌, ◌∷◌, ◌+◌, ◌<◌, [], false, map, ◌==◌, OnOk, IfOk};
ghost use Rattle.std.specs.List.{list_any};
ghost use Rattle.conference_spec.specs.declared.Entry.TheVariants.{Join, Leave, Close};
ghost use Rattle.conference_spec.specs.Codec.{g726};
ghost use Rattle.conference_spec.specs.Feed.{Feed, Guest, listeners};
ghost use Rattle.talk_mix.specs.declared.ticks.Tick.{Tick};
ghost use Rattle.session_account.specs.Listening.{Lists, visit_of, went, listener_of, listeners_of, IsPast, IsAged};

use crate::counts::more;
use conference_spec::JoinSpec;
use edge_io::Memory;
use g726_bits::Rate;
use std::alloc::Global;
use std::marker::Model;

/// A member that listens, the ticks for which it did, and the packets that it was sent.
#[derive(Clone, Copy, Debug, PartialEq, Eq)]
pub struct Listener {
    pub member: u32,
    /// The rate of its packets.
    pub rate: Rate,
    /// The ticks of 20 ms from its join to its leave.
    pub ticks: u64,
    pub packets: u64,
}

/// A listener as it came: its number, its rate, the ticks in each of its packets, how many ticks were closed before its join, and before
/// its leave, if it has left.
#[derive(Clone, Copy)]
pub(crate) struct Visit {
    pub(crate) member: u32,
    pub(crate) rate: Rate,
    pub(crate) bundle: u8,
    pub(crate) from: u64,
    pub(crate) left: Option<u64>,
}

impl Visit {
    /// What it came to, where so many ticks were closed. Each packet carries as many ticks as was asked for, but the last may carry fewer.
    fn listener(&self, closed: u64) -> Listener
        requires { IsPast self.now closed }
        ensures { (g : Guest) → self.now ≡ visit_of g → IsAged g closed → result ≡ listener_of g }
    {
        let ticks = self.left.unwrap_or(closed) - self.from;
        let bundle = u64::from(self.bundle.max(1));
        Listener {
            member: self.member,
            rate: self.rate,
            ticks,
            packets: ticks.div_ceil(bundle),
        }
    }

    /// Notes that a member goes where so many ticks were closed, if this is its visit and it hasn't left.
    fn leave(&mut self, member: u32, closed: u64)
        ensures { self.new ≡ went member closed self.old }
    {
        if self.left.is_none() && self.member == member {
            self.left = Some(closed);
        }
    }
}

/// Those who ever listened to a conference, in the order of their joins, and how many ticks were closed.
#[derive(Drop)]
pub struct Visits {
    visits: Vec<Visit>,
    closed: u64,
}

impl Model for Visits {
    ghost use Rattle.session_account.specs.Listening.{Visited};

    ghost Value = { Visited };

    ghost view = { λ v. record { visits = v.visits.items; closed = v.closed } };
}

impl Visits {
    /// Nobody has listened, and no tick was closed. Takes no memory.
    pub fn new(alloc: Global) -> Visits
        ensures { Lists result [] }
    {
        Visits {
            visits: Vec::new(alloc),
            closed: 0,
        }
    }

    /// Notes a listener that joins.
    ///
    /// # Errors
    ///
    /// `Memory` where there was none.
    pub fn join(&mut self, spec: JoinSpec) -> Result<(), Memory>
        ensures { OnOk result ((f : Feed) → Lists self.old f → Lists self.new (Join spec ∷ f)) }
    {
        self.visits.push(Visit {
            member: spec.member,
            rate: spec.rate,
            bundle: spec.ticks,
            from: self.closed,
            left: None,
        })?;
        Ok(())
    }

    /// Notes that a member goes, if it listens.
    pub fn leave(&mut self, member: u32)
        ensures leaves { (f : Feed) → Lists self.old f → Lists self.new (Leave member ∷ f) }
        ensures absent { (f : Feed) → Lists self.old f → list_any (λ l. l.spec.member == member) (listeners g726 f) ≡ false → Lists self.new f }
    {
        leave_all(&mut self.visits, member, self.closed);
    }

    /// Notes that a tick is closed.
    ///
    /// # Errors
    ///
    /// `Memory` where 64 bits can't count on.
    pub fn close(&mut self) -> Result<(), Memory>
        ensures { OnOk result ((f : Feed) (tick : Tick) → Lists self.old f → Lists self.new (Close tick ∷ f)) }
    {
        more(&mut self.closed, 1)
    }

    /// What each listener heard and was sent, in the order of their joins.
    ///
    /// # Errors
    ///
    /// `Memory` where there was none.
    pub fn listeners(&self, alloc: Global) -> Result<Vec<Listener>, Memory>
        requires { (f : Feed) × Lists self.now f }
        ensures { IfOk result (λ listeners. (f : Feed) → Lists self.now f → listeners.items ≡ listeners_of f) }
    {
        let mut listeners = Vec::new(alloc);
        for visit in &self.visits {
            listeners.push(visit.listener(self.closed))?;
        }
        Ok(listeners)
    }
}

/// Notes that a member goes.
fn leave_all(visits: &mut Vec<Visit>, member: u32, closed: u64)
    ensures { visits.new.items ≡ map (went member closed) visits.old.items }
{
    for i in 0..visits.len() {
        visits[i].leave(member, closed);
    }
}
