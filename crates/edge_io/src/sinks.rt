//! Where octets go.
ghost use Rattle.std.specs.Prelude.{◌≡◌, ◌<◌, ◌≤◌, ℕ, List, [], Option, length, take, IfOk, OnOk, OnErr, IsErrOf};
ghost use Rattle.edge_io.specs.Answers.{put_failed, put_lacked};
ghost use Rattle.edge_io.specs.Told.{Counts, Grows, GrowsByFront};

use crate::faults::PutFault;
use std::alloc::Global;

/// An output that takes octets in order. What `write` took is handed on before it answers.
pub trait Sink {
    // The octets that were taken so far, where the sink tells them.
    ghost held: { Self → Option (List ℕ) };

    // How many calls have failed so far. The count never falls, and stops at 2^64 - 1.
    ghost faults: { Self → ℕ };

    // How often there was no memory. The count never falls, and stops at 2^64 - 1.
    ghost lacks: { Self → ℕ };

    /// Takes some octets from the front of `piece`, and says how many: at least one, unless
    /// `piece` is empty. `alloc` serves a sink that keeps them in memory.
    ///
    /// # Errors
    ///
    /// `Failed` where the call failed, `Memory` where there was no memory. Then no octet was taken.
    fn write(&mut self, alloc: Global, piece: &[u8]) -> Result<usize, PutFault>
        ensures count { IfOk result (λ n. n ≤ length piece.now) }
        ensures progress { IfOk result (λ n. 0 < length piece.now → 0 < n) }
        ensures empty { piece.now ≡ [] → result ≡ Ok 0 }
        ensures grows { IfOk result (λ n.
            Grows (held self.old) (held self.new) (take n piece.now)) }
        ensures fault { OnErr result (held self.new ≡ held self.old) }
        ensures counts { Counts (faults self.old) (put_failed result) (faults self.new) }
        ensures lacks { Counts (lacks self.old) (put_lacked result) (lacks self.new) };
}

/// Writes the whole of `piece`.
///
/// # Errors
///
/// `Failed` where a write failed, `Memory` where there was no memory. Then a front of `piece`,
/// maybe none of it, was taken.
pub fn write_all<K: Sink>(alloc: Global, sink: &mut K, piece: &[u8]) -> Result<(), PutFault>
    ensures whole { OnOk result (Grows (K.held sink.old) (K.held sink.new) piece.now) }
    ensures fault { OnErr result (GrowsByFront (K.held sink.old) (K.held sink.new) piece.now) }
    ensures counts { Counts (K.faults sink.old) (put_failed result) (K.faults sink.new) }
    ensures lacks { Counts (K.lacks sink.old) (put_lacked result) (K.lacks sink.new) }
{
    let mut written = 0;
    while written < piece.len() {
        written += sink.write(alloc, &piece[written..])?;
    }
    Ok(())
}
