//! Outputs in memory that fail at the calls that they are told to.
ghost use Rattle.std.specs.Prelude.{◌≡◌, ◌≢◌, ◌<◌, ◌↔◌, [], ℕ, List, Some, length, OnOk, OnErr, IsErrOf};
ghost use Rattle.edge_io.specs.Answers.{put_failed};
ghost use Rattle.edge_io.specs.Told.{Counts, Grows, GrowsByFront};
ghost use Rattle.edge_io.specs.Plan.{IsPlanned, IsFresh, OneCall};
ghost use Rattle.room_pool.specs.Kept.{held_by};

use crate::filled::{Filled, octets_among, place_of};
use crate::outs::Outs;
use edge_io::{Octets, Plan, PutFault};
use std::alloc::{AllocError, Global};
use std::marker::Model;

/// Outputs in memory. Contracts see each name with what it holds, and the plan of failures.
#[derive(Debug, Drop)]
pub struct MemOuts {
    files: Vec<Filled>,
    plan: Plan,
}

impl Model for MemOuts {
    ghost use Rattle.room_pool.specs.Kept.{KeptOuts};

    ghost Value = { KeptOuts };

    ghost view = { λ o. record { files = o.files.items; plan = o.plan } };
}

impl MemOuts {
    /// Outputs of which each name holds nothing, and whose calls with the numbers in `fail`, counted from 0, fail. A call without an
    /// octet isn't counted and doesn't fail. Takes no memory.
    pub fn new(alloc: Global, fail: Octets) -> MemOuts
        ensures files { result.files ≡ [] }
        ensures nothing { (name : List ℕ) → held_by result name ≡ [] }
        ensures plan { IsFresh result.plan fail }
    {
        MemOuts {
            files: Vec::new(alloc),
            plan: Plan::new(fail),
        }
    }

    /// Lends what a name holds: nothing, where nothing was added to it.
    pub fn content(&self, name: &str) -> &[u8]
        ensures { result.now ≡ held_by self.now name.now }
    {
        octets_among(self.files.as_slice(), name.as_bytes())
    }

    /// Adds octets to what a name holds.
    ///
    /// # Errors
    ///
    /// `AllocError` where there was no memory. Then nothing was added.
    fn add(&mut self, alloc: Global, name: &str, octets: &[u8]) -> Result<(), AllocError>
        ensures whole { OnOk result (Grows (Some (held_by self.old name.now)) (Some (held_by self.new name.now)) octets.now) }
        ensures none { OnErr result (held_by self.new name.now ≡ held_by self.old name.now) }
        ensures others { (other : List ℕ) → other ≢ name.now → held_by self.new other ≡ held_by self.old other }
        ensures plan { self.new.plan ≡ self.old.plan }
    {
        match place_of(self.files.as_slice(), name.as_bytes()) {
            Some(at) => {
                let file = &mut self.files[at];
                file.add(octets)?;
            }
            None => self
                .files
                .push(Filled::new(alloc, name.as_bytes(), octets)?)?,
        }
        Ok(())
    }
}

impl Outs for MemOuts {
    ghost held = { λ o name. Some (held_by o name) };

    ghost faults = { λ o. o.plan.faults };

    fn put(&mut self, alloc: Global, name: &str, octets: &[u8]) -> Result<(), PutFault>
        ensures planned { IsErrOf result PutFault.Failed ↔ ((0 < length octets.now) × IsPlanned self.old.plan) }
        ensures called { 0 < length octets.now → OneCall self.old.plan self.new.plan }
        ensures uncounted { octets.now ≡ [] → self.new ≡ self.old }

        ensures whole { OnOk result (Grows (Some (held_by self.old name.now)) (Some (held_by self.new name.now)) octets.now) }
        ensures fault { OnErr result (GrowsByFront (Some (held_by self.old name.now)) (Some (held_by self.new name.now)) octets.now) }
        ensures others { (other : List ℕ) → other ≢ name.now → Some (held_by self.new other) ≡ Some (held_by self.old other) }
        ensures counts { Counts self.old.plan.faults (put_failed result) self.new.plan.faults }
    {
        if octets.is_empty() {
            return Ok(());
        }
        if self.plan.call() {
            self.plan.fault();
            return Err(PutFault::Failed);
        }
        Ok(self.add(alloc, name, octets)?)
    }
}
