//! Where answers go, by name.
ghost use Rattle.std.specs.Prelude.{◌≡◌, ◌≢◌, ℕ, List, Option, OnOk, OnErr};
ghost use Rattle.edge_io.specs.Answers.{put_failed};
ghost use Rattle.edge_io.specs.Told.{Counts, Grows, GrowsByFront};

use edge_io::PutFault;
use std::alloc::Global;

/// Outputs by name, each of which holds octets that are added to.
pub trait Outs {
    // The octets that a name holds, where they are told.
    ghost held: { Self → List ℕ → Option (List ℕ) };

    // How many calls have failed so far. The count never falls, and stops at 2^64 - 1.
    ghost faults: { Self → ℕ };

    /// Adds octets behind what the name holds. What every other name holds stays.
    ///
    /// # Errors
    ///
    /// `Failed` where the call failed, `Memory` where there was no memory. Then a front of the octets, maybe none of them, was added.
    fn put(&mut self, alloc: Global, name: &str, octets: &[u8]) -> Result<(), PutFault>
        ensures whole { OnOk result (Grows (held self.old name.now) (held self.new name.now) octets.now) }
        ensures fault { OnErr result (GrowsByFront (held self.old name.now) (held self.new name.now) octets.now) }
        ensures others { (other : List ℕ) → other ≢ name.now → held self.new other ≡ held self.old other }
        ensures counts { Counts (faults self.old) (put_failed result) (faults self.new) };
}
