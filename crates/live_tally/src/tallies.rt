//! The tallies of all listeners.
ghost use Rattle.std.specs.Prelude.{◌≡◌, ◌≤◌, ◌<◌, ◌+◌, ℕ, List, [], ◌∷◌, ◌++◌, ◌==◌, false, map, filter, not, length, IfOk, OnOk};
ghost use Rattle.std.specs.List.{list_any};
ghost use Rattle.talk_mix.specs.declared.ticks.Tick.{Tick};
ghost use Rattle.conference_spec.specs.declared.Packet.{Packet};
ghost use Rattle.conference_spec.specs.declared.Entry.TheVariants.{Join, Leave, Close, Collect};
ghost use Rattle.conference_spec.specs.Coding.{Coder};
ghost use Rattle.conference_spec.specs.Feed.{Feed, closes, before, listeners};
ghost use Rattle.conference_spec.specs.Packets.{rest};
ghost use Rattle.session_spec.specs.Answer.{sent_to};
ghost use Rattle.live_spec.specs.Reports.{tick_reports, end_reports};
ghost use Rattle.live_tally.specs.Kept.{Keeps};

use crate::account::{Account, Total, drop_leavers, mark_leaves, with_packet};
use crate::due::{add_end, due_at};
use conference_spec::{JoinSpec, Packet};
use edge_io::Memory;
use rtcp_pack::Report;
use std::alloc::Global;
use std::collections::HashMap;

/// What each listener was sent, of all that have had no last report.
#[derive(Drop)]
pub struct Tallies {
    accounts: Vec<Account>,
    totals: HashMap<u32, Total>,
}

impl Tallies {
    /// Nobody listens, and nothing was sent. Takes no memory.
    pub fn new(alloc: Global) -> Tallies
        ensures { (coder : Coder) → Keeps coder result [] [] }
    {
        Tallies {
            accounts: Vec::new(alloc),
            totals: HashMap::new(alloc),
        }
    }

    /// A listener joins after so many ticks.
    ///
    /// # Errors
    ///
    /// `Memory` where there was no memory. Then the tallies are of no more use.
    pub fn join(&mut self, spec: JoinSpec, closed: u64) -> Result<(), Memory>
        ensures { OnOk result ((coder : Coder) (h : Feed) (packets : List Packet) → closed ≡ closes h → Keeps coder self.old h packets →
            Keeps coder self.new (Join spec ∷ h) packets) }
    {
        self.accounts.push(Account {
            spec,
            from: closed,
            left: None,
        })?;
        Ok(())
    }

    /// A member leaves after so many ticks. The leave of one who doesn't listen changes nothing.
    pub fn leave(&mut self, member: u32, closed: u64)
        ensures left { (coder : Coder) (h : Feed) (packets : List Packet) → closed ≡ closes h → Keeps coder self.old h packets →
            Keeps coder self.new (Leave member ∷ h) packets }
        ensures nobody { (coder : Coder) (h : Feed) (packets : List Packet) → closed ≡ closes h →
            list_any (λ l. l.spec.member == member) (listeners coder h) ≡ false → Keeps coder self.old h packets → Keeps coder self.new h packets }
    {
        mark_leaves(&mut self.accounts, member, closed);
    }

    /// A packet is sent.
    ///
    /// # Errors
    ///
    /// `Memory` where there was no memory. Then the tallies are of no more use.
    pub fn count(&mut self, packet: &Packet) -> Result<(), Memory>
        ensures { OnOk result ((coder : Coder) (h : Feed) (packets : List Packet) → Keeps coder self.old h packets →
            Keeps coder self.new h (packets ++ packet.now ∷ [])) }
    {
        let total = self.totals.get(&packet.member).copied();
        let total = with_packet(total, packet.payload.as_slice().len());
        if self.totals.insert(packet.member, total).is_err() {
            return Err(Memory);
        }
        Ok(())
    }

    /// The reports that are due after tick `tick`, counted from 0, where its packets were sent and counted: those to who is
    /// present, after each 250th tick, and the last ones to who left right before its close.
    ///
    /// # Errors
    ///
    /// `Memory` where there was no memory for them.
    pub fn tick_reports(&self, alloc: Global, tick: u64) -> Result<Vec<Report>, Memory>
        requires { tick < 4320000 }
        ensures { IfOk result (λ reports. (coder : Coder) (h : Feed) → closes (before tick h) ≡ tick →
            Keeps coder self.now (before tick h) (sent_to coder (tick + 1) h) → reports.items ≡ tick_reports coder tick h) }
    {
        let reports = due_at(alloc, self.accounts.as_slice(), &self.totals, tick)?;
        Ok(reports)
    }

    /// The tick is over: those who left right before its close have had their last report.
    pub fn close(&mut self, tick: u64)
        ensures { (coder : Coder) (h : Feed) (talkers : Tick) (packets : List Packet) → closes h ≡ tick → Keeps coder self.old h packets →
            Keeps coder self.new (Collect ∷ Close talkers ∷ h) packets }
    {
        drop_leavers(&mut self.accounts, tick);
    }

    /// The last reports, to all others, where all of so many ticks and what was left of them were sent and counted.
    ///
    /// # Errors
    ///
    /// `Memory` where there was no memory for them.
    pub fn end_reports(&self, alloc: Global, ticks: u64) -> Result<Vec<Report>, Memory>
        requires { ticks ≤ 4320000 }
        ensures { IfOk result (λ reports. (coder : Coder) (h : Feed) → closes h ≡ ticks →
            Keeps coder self.now h (sent_to coder ticks h ++ rest coder h) → reports.items ≡ end_reports coder ticks h) }
    {
        let mut reports = Vec::new(alloc);
        add_end(&mut reports, self.accounts.as_slice(), &self.totals, ticks)?;
        Ok(reports)
    }
}
