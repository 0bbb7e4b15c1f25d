//! Where whole files are taken from by name.
ghost use Rattle.std.specs.Prelude.{◌≡◌, ◌<◌, ◌≤◌, ℕ, List, length, IfOk, OnOk, IsErr, IsErrOf};
ghost use Rattle.edge_io.specs.Answers.{take_failed};
ghost use Rattle.edge_io.specs.Told.{Counts};
ghost use Rattle.edge_io.specs.File.{File, missing, content, IsWhole, IsLonger};

use crate::faults::TakeFault;
use crate::octet_list::Octets;
use std::alloc::Global;

/// Files by name, each taken whole.
pub trait Shelf {
    // What the shelf tells of each name.
    ghost file: { Self → List ℕ → File };

    // How many calls have failed so far. The count never falls, and stops at 2^64 - 1.
    ghost faults: { Self → ℕ };

    // None of its coming calls is to fail at a name that is there.
    ghost calm: { Self → Type 0 };

    /// Takes the whole content of `name`, which is to have at most `at_most` octets.
    ///
    /// # Errors
    ///
    /// `Failed` where the name isn't there or the call failed, `TooLong` where the content has more
    /// than `at_most` octets, `Memory` where there was no memory for it.
    fn take(&mut self, alloc: Global, name: &str, at_most: usize) -> Result<Octets, TakeFault>
        ensures whole { IfOk result (λ octets. IsWhole (file self.old name.now) octets) }
        ensures fits { IfOk result (λ octets. length octets ≤ at_most) }
        ensures too_long { IsErrOf result TakeFault.TooLong →
            IsLonger (file self.old name.now) at_most }
        ensures never_cut { (held : List ℕ) → file self.old name.now ≡ content held →
            at_most < length held → IsErr result }
        ensures absent { file self.old name.now ≡ missing → result ≡ Err TakeFault.Failed }
        ensures same { (other : List ℕ) → file self.new other ≡ file self.old other }

        ensures counts { Counts (faults self.old) (take_failed result) (faults self.new) }

        ensures calm_take { (held : List ℕ) → file self.old name.now ≡ content held →
            calm self.old → faults self.new ≡ faults self.old }
        ensures stays_calm { calm self.old → calm self.new };
}
