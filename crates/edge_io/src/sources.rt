//! Where octets come from.
ghost use Rattle.std.specs.Prelude.{is_err, ◌≡◌, ◌+◌, ◌<◌, ◌≤◌, ◌↔◌, ℕ, List, [], Option, length, min, IfOk, OnOk, OnErr, IfSome};
ghost use Rattle.edge_io.specs.Told.{Counts, Takes, LosesFewer};

use crate::faults::Failed;

/// An input that gives its octets in order and once each.
pub trait Source {
    // The octets that are still to come, where the source tells them.
    ghost rest: { Self → Option (List ℕ) };

    // How many calls have failed so far. The count never falls, and stops at 2^64 - 1.
    ghost faults: { Self → ℕ };

    /// Reads some octets, at most as many as `buf` has, to the front of `buf`, and says how many.
    ///
    /// `Ok(0)` into a `buf` that isn't empty means that the source has ended.
    ///
    /// # Errors
    ///
    /// `Failed` where the call failed. Then no octet was taken.
    fn read(&mut self, buf: &mut [u8]) -> Result<usize, Failed>
        ensures count { IfOk result (λ n. n ≤ length buf.old) }
        ensures octets { IfOk result (λ n. Takes (rest self.old) (rest self.new) n buf.new) }
        ensures end { IfOk result (λ n. IfSome (rest self.old) (λ octets.
            0 < length buf.old → ((n ≡ 0) ↔ (octets ≡ [])))) }
        ensures failed { OnErr result (rest self.new ≡ rest self.old) }
        ensures counts { Counts (faults self.old) (is_err result) (faults self.new) };
}

/// Reads until `buf` is full or the source has ended, and says how many octets now stand at the
/// front of `buf`: all, unless fewer were left.
///
/// # Errors
///
/// `Failed` where a read failed. Then fewer octets than `buf` has were taken, and they are lost.
pub fn read_full<S: Source>(source: &mut S, buf: &mut [u8]) -> Result<usize, Failed>
    ensures count { IfOk result (λ n. n ≤ length buf.old) }
    ensures octets { IfOk result (λ n. Takes (S.rest source.old) (S.rest source.new) n buf.new) }
    ensures told { IfOk result (λ n. IfSome (S.rest source.old) (λ octets.
        n ≡ min (length octets) (length buf.old))) }
    ensures failed { OnErr result (LosesFewer (S.rest source.old) (S.rest source.new)
        (length buf.old)) }
    ensures counts { Counts (S.faults source.old) (is_err result) (S.faults source.new) }
{
    let mut filled = 0;
    while filled < buf.len() {
        let n = source.read(&mut buf[filled..])?;
        if n == 0 {
            break;
        }
        filled += n;
    }
    Ok(filled)
}
