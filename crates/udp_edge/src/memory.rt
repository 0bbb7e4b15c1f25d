//! A link and a clock in memory, which do what they are told to.
ghost use Rattle.std.specs.Prelude.{false, is_ok, is_err, ◌≡◌, ◌<◌, ◌≤◌, ◌↔◌, [], None, Some, length, slice_get, IfOk, IfSome, OnOk, IsErr, IsErrOf, vec_len};
ghost use Rattle.edge_io.specs.Answers.{put_failed};
ghost use Rattle.edge_io.specs.Told.{Counts};
ghost use Rattle.edge_io.specs.Plan.{IsPlanned, IsFresh, OneCall};
ghost use Rattle.udp_edge.specs.Traffic.{Opens, Receives, Sends};

use crate::clocks::Clock;
use crate::links::Link;
use crate::peer::{Got, Peer};
use crate::turns::{Tried, Turn};
use edge_io::{Failed, Octets, Plan, PutFault};
use std::alloc::Global;
use std::marker::Model;

/// A link whose datagrams come from a list, and that keeps what it was to send. Contracts see the turns that are still to
/// come, the datagrams that were tried, the port and the plan of failures.
#[derive(Debug, Drop)]
pub struct MemLink {
    turns: Vec<Turn>,
    at: usize,
    tried: Vec<Tried>,
    port: Option<u16>,
    is_open: bool,
    plan: Plan,
}

impl Model for MemLink {
    ghost use Rattle.std.specs.Prelude.{◌≤◌, length, drop};
    ghost use Rattle.udp_edge.specs.Kept.{Kept};

    ghost Value = { Kept };

    ghost view = { λ l. record {
      traffic = record { coming = drop l.at l.turns.items; tried = l.tried.items; port = l.port };
      is_open = l.is_open;
      plan = l.plan;
    } };

    ghost invariant = { λ l. l.at ≤ length l.turns.items };
}

impl MemLink {
    /// A link whose calls of `recv` find these turns, and whose calls of `open` and `send` with the numbers in `fail`,
    /// counted from 0 over both, fail. Takes no memory.
    pub fn new(alloc: Global, turns: Vec<Turn>, fail: Octets) -> MemLink
        ensures traffic { result.traffic ≡ record { coming = turns.items; tried = []; port = None } }
        ensures shut { result.is_open ≡ false }
        ensures plan { IsFresh result.plan fail }
    {
        MemLink {
            turns,
            at: 0,
            tried: Vec::new(alloc),
            port: None,
            is_open: false,
            plan: Plan::new(fail),
        }
    }

    /// How many datagrams were to be sent so far.
    pub fn tries(&self) -> usize
        ensures { result ≡ length self.now.traffic.tried }
    {
        self.tried.len()
    }

    /// The datagram at place `i`, counted from 0, of those that were to be sent: its peer, its octets, and whether it went.
    pub fn tried(&self, i: usize) -> (Peer, &[u8], bool)
        requires { i < length self.now.traffic.tried }
        ensures { slice_get self.now.traffic.tried i ≡ Some (record { to = result.0; octets = result.1.now; went = result.2 }) }
    {
        let tried = &self.tried[i];
        (tried.to, tried.octets.as_slice(), tried.went)
    }
}

impl Link for MemLink {
    ghost is_open = { λ l. l.is_open };

    ghost traffic = { λ l. Some l.traffic };

    ghost faults = { λ l. l.plan.faults };

    fn open(&mut self, port: u16) -> Result<(), Failed>
        ensures planned { IsErr result ↔ IsPlanned self.old.plan }
        ensures called { OneCall self.old.plan self.new.plan }

        ensures opened { self.new.is_open ≡ is_ok result }
        ensures traffic { Opens (Some self.old.traffic) (Some self.new.traffic) port }
        ensures counts { Counts self.old.plan.faults (is_err result) self.new.plan.faults }
    {
        self.port = Some(port);
        self.is_open = !self.plan.call();
        if self.is_open {
            return Ok(());
        }
        self.plan.fault();
        Err(Failed)
    }

    fn recv(&mut self, buf: &mut [u8]) -> Result<Option<Got>, Failed>
        ensures uncounted { self.new.plan ≡ record self.old.plan { faults = self.new.plan.faults } }

        ensures len { IfOk result (λ taken. IfSome taken (λ got. got.len ≤ length buf.old)) }
        ensures traffic { Receives (Some self.old.traffic) (Some self.new.traffic) result (length buf.old) buf.new }
        ensures opened { self.new.is_open ≡ self.old.is_open }
        ensures counts { Counts self.old.plan.faults (is_err result) self.new.plan.faults }
    {
        if self.at == self.turns.len() {
            return Ok(None);
        }
        let turn = &self.turns[self.at];
        self.at += 1;
        match turn {
            Turn::Datagram(octets, from) => {
                let octets = octets.as_slice();
                let len = octets.len().min(buf.len());
                buf[..len].copy_from_slice(&octets[..len]);
                Ok(Some(Got { len, from: *from }))
            }
            Turn::Nothing => Ok(None),
            Turn::Fault => {
                self.plan.fault();
                Err(Failed)
            }
        }
    }

    fn send(&mut self, alloc: Global, to: Peer, octets: &[u8]) -> Result<(), PutFault>
        ensures planned { IsErrOf result PutFault.Failed → IsPlanned self.old.plan }
        ensures goes { OnOk result (¬ IsPlanned self.old.plan) }
        ensures called { OneCall self.old.plan self.new.plan }

        ensures traffic { Sends (Some self.old.traffic) (Some self.new.traffic) to octets.now result }
        ensures opened { self.new.is_open ≡ self.old.is_open }
        ensures counts { Counts self.old.plan.faults (put_failed result) self.new.plan.faults }
    {
        let went = !self.plan.call();
        let octets = Octets::of(Vec::from_slice(alloc, octets)?);
        if self.tried.push(Tried { to, octets, went }).is_err() {
            return Err(PutFault::Memory);
        }
        if went {
            return Ok(());
        }
        self.plan.fault();
        Err(PutFault::Failed)
    }
}

/// A clock whose answers come from a list; the last of them is repeated. Contracts see the answers that are still to come.
#[derive(Debug, Drop)]
pub struct MemClock {
    answers: Vec<u64>,
    at: usize,
}

impl Model for MemClock {
    ghost use Rattle.std.specs.Prelude.{List, ℕ, ◌<◌, length, drop};

    ghost Value = { List ℕ };

    ghost view = { λ c. drop c.at c.answers.items };

    ghost invariant = { λ c. c.at < length c.answers.items };
}

impl MemClock {
    /// A clock that gives these answers, of which there is one at least. Takes no memory.
    pub fn new(answers: Vec<u64>) -> MemClock
        requires { 0 < vec_len answers }
        ensures { result ≡ answers.items }
    {
        MemClock { answers, at: 0 }
    }
}

impl Clock for MemClock {
    ghost answers = { λ c. Some c };

    fn now(&mut self) -> u64 {
        let now = self.answers[self.at];
        if self.at + 1 < self.answers.len() {
            self.at += 1;
        }
        now
    }
}
