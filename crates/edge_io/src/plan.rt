//! The calls of an end in memory, and which of them are to fail.
ghost use Rattle.std.specs.Prelude.{◌≡◌, ◌+◌, ◌-◌, ◌^◌, ◌≤◌, min, ◌↔◌, IsTrue};

use crate::octet_list::Octets;

/// Which calls of an end in memory are to fail, and how many there were and failed. Both counts stop at 2^64 - 1.
#[derive(Debug, Drop)]
pub struct Plan {
    pub fail: Octets,
    pub calls: u64,
    pub faults: u64,
}

impl Plan {
    ghost use Rattle.edge_io.specs.Plan.{IsPlanned, IsOver, OneCall, IsFresh};

    /// A plan by which the calls with these numbers, counted from 0, are to fail.
    pub fn new(fail: Octets) -> Plan
        ensures { IsFresh result fail }
    {
        Plan {
            fail,
            calls: 0,
            faults: 0,
        }
    }

    /// Counts a call, and says whether it is to fail.
    pub fn call(&mut self) -> bool
        ensures planned { IsTrue result ↔ IsPlanned self.old }
        ensures called { OneCall self.old self.new }
        ensures stays_over { IsOver self.old → IsOver self.new }
        ensures faults { self.new.faults ≡ self.old.faults }
    {
        let number = self.calls;
        self.calls = number.saturating_add(1);
        self.fail.as_slice().iter().any(|n| u64::from(*n) == number)
    }

    /// Counts a failed call.
    pub fn fault(&mut self)
        ensures faults { self.new.faults ≡ min (self.old.faults + 1) (2 ^ 64 - 1) }
        ensures never_falls { self.old.faults ≤ self.new.faults }
        ensures rest { self.new ≡ record self.old { faults = self.new.faults } }
    {
        self.faults = self.faults.saturating_add(1);
    }
}
