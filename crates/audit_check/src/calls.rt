//! The call that says whether octets are the answer of a session.
ghost use Rattle.std.specs.Prelude.{◌≡◌, ◌⊎◌, ◌<◌, ◌≤◌, ℕ, List, None, Some, Ok, Err, length, IsSome, IsOk, IfOk, IfErr, OnOk, OnErr, IfSome, IsErrOf};
ghost use Rattle.edge_io.specs.Told.{Rose};
ghost use Rattle.edge_io.specs.File.{content, missing};
ghost use Rattle.roster_text.specs.Roster.{roster};
ghost use Rattle.program_edge.specs.Report.{Tells};
ghost use Rattle.audit_check.specs.CommandLine.{names_of, roster_of, out_of};
ghost use Rattle.session_edge.specs.Given.{IfRoster as IfFile};
ghost use Rattle.audit_check.specs.Given.{IfRead, IfAudit};
ghost use Rattle.audit_check.specs.Causes.{IsBeforeSession, IsFaultEnd, IsOutputEnd, IsVerdict, IsUnlessMemory, EndsUnlessMemory, OnRosterFault, verdict_of};
ghost use Rattle.audit_check.specs.Texts.{line_of};
ghost use Rattle.audit_check.specs.Report.{Reported};
ghost use Rattle.audit_check.specs.Ends.{Finds, CallFinds, IsRight, fault_met};

use crate::compare::Difference;
use crate::status::AuditStatus;
use crate::steps::{are_names, read_roster, run, take_out, take_roster};
use crate::texts::status_line;
use edge_io::{Shelf, Sink, Source, Words, write_all};
use program_edge::tell_once;
use std::alloc::Global;

/// Says whether octets are the answer of a session: `ROSTER OUT`.
///
/// `words` are those of the command line after the program's name. The roster and the octets are taken from `shelf`, the capture
/// is read from `dump`, up to the session's end, and the verdict is written to `out`, as one line.
pub fn audit<S: Source, K: Sink, F: Shelf>(
    alloc: Global,
    words: &Words,
    shelf: &mut F,
    dump: &mut S,
    out: &mut K,
) -> AuditStatus
    // The words decide first, and without them nothing is read.
    ensures usage { result ≡ AuditStatus.Usage → names_of words.now ≡ None }
    ensures usage_only { names_of words.now ≡ None → result ≡ AuditStatus.Usage }
    ensures unused { names_of words.now ≡ None → (shelf.new ≡ shelf.old) × (dump.new ≡ dump.old) }

    // Then the roster: one that isn't there, one that is too long, and the first bad line.
    ensures no_roster { IfSome (roster_of words.now) (λ name. F.file shelf.old name ≡ missing →
        result ≡ AuditStatus.ReadFault) }
    ensures long { result ≡ AuditStatus.RosterLong →
        IfFile (roster_of words.now) (F.file shelf.old) (λ text. 1048576 < length text) }
    ensures long_only { IfFile (roster_of words.now) (F.file shelf.old) (λ text. 1048576 < length text →
        IsUnlessMemory result AuditStatus.RosterLong ⊎ Rose (F.faults shelf.old) (F.faults shelf.new)) }
    ensures roster_fault { OnRosterFault result (λ line kind.
        IfFile (roster_of words.now) (F.file shelf.old) (λ text. roster text ≡ Err (record { line = line; kind = kind }))) }
    ensures roster_fault_only { IfFile (roster_of words.now) (F.file shelf.old) (λ text. length text ≤ 1048576 →
        IfErr (roster text) (λ fault. IsUnlessMemory result (AuditStatus.RosterFault fault.line fault.kind)
        ⊎ Rose (F.faults shelf.old) (F.faults shelf.new))) }

    // Then the octets: those that aren't there, and those that are too many.
    ensures no_out { IfRead (roster_of words.now) (F.file shelf.old) (λ told. IfSome (out_of words.now) (λ name.
        F.file shelf.old name ≡ missing → IsUnlessMemory result AuditStatus.ReadFault)) }
    ensures out_long { result ≡ AuditStatus.OutLong →
        IfFile (out_of words.now) (F.file shelf.old) (λ octets. 1073741824 < length octets) }
    ensures out_long_only { IfRead (roster_of words.now) (F.file shelf.old) (λ told.
        IfFile (out_of words.now) (F.file shelf.old) (λ octets. 1073741824 < length octets →
        IsUnlessMemory result AuditStatus.OutLong ⊎ Rose (F.faults shelf.old) (F.faults shelf.new))) }

    // Before the session nothing of the capture is taken.
    ensures untouched { IsBeforeSession result → dump.new ≡ dump.old }
    ensures not_taken { F.faults shelf.old < F.faults shelf.new → (result ≡ AuditStatus.ReadFault) × (dump.new ≡ dump.old) }

    // Then the session and the verdict: a fault is the one that the capture meets, Yes is said of the answer alone, and No of all
    // else, with the first difference.
    ensures session { IfAudit (roster_of words.now) (out_of words.now) (F.file shelf.old) (S.rest dump.old) (λ given octets.
        CallFinds given octets (S.rest dump.new) result) }
    ensures good { IsVerdict result →
        IfFile (roster_of words.now) (F.file shelf.old) (λ text. (length text ≤ 1048576) × IsOk (roster text))
        × IfFile (out_of words.now) (F.file shelf.old) (λ octets. length octets ≤ 1073741824) }

    // A session without a fault comes to the right verdict, and one with a fault ends at it, unless a call fails or there is no
    // memory.
    ensures complete { IfAudit (roster_of words.now) (out_of words.now) (F.file shelf.old) (S.rest dump.old) (λ given octets.
        fault_met given ≡ None → IsRight given octets result ⊎ (result ≡ AuditStatus.Memory)
        ⊎ Rose (F.faults shelf.old) (F.faults shelf.new) ⊎ Rose (S.faults dump.old) (S.faults dump.new)
        ⊎ Rose (K.faults out.old) (K.faults out.new)) }
    ensures dump_fault_only { IfAudit (roster_of words.now) (out_of words.now) (F.file shelf.old) (S.rest dump.old) (λ given octets.
        IfSome (fault_met given) (λ fault. IsUnlessMemory result (AuditStatus.DumpFault fault.at fault.kind)
        ⊎ Rose (F.faults shelf.old) (F.faults shelf.new) ⊎ Rose (S.faults dump.old) (S.faults dump.new))) }

    // A failed call has its count.
    ensures read { result ≡ AuditStatus.ReadFault →
        Rose (F.faults shelf.old) (F.faults shelf.new) ⊎ Rose (S.faults dump.old) (S.faults dump.new) }
    ensures write { result ≡ AuditStatus.WriteFault → Rose (K.faults out.old) (K.faults out.new) }

    // What stands on the output.
    ensures reported { Reported result (K.held out.old) (K.held out.new)
        (Rose (K.faults out.old) (K.faults out.new) ⊎ Rose (K.lacks out.old) (K.lacks out.new)) }
{
    match work(alloc, words, shelf, dump) {
        Ok(found) => finish(alloc, out, verdict(found)),
        Err(status) => report(alloc, out, status),
    }
}

/// The steps of an audit, up to its verdict.
fn work<S: Source, F: Shelf>(
    alloc: Global,
    words: &Words,
    shelf: &mut F,
    dump: &mut S,
) -> Result<Option<Difference>, AuditStatus>
    ensures fault_ends { IfErr result IsFaultEnd }
    ensures some { OnOk result (IsSome (names_of words.now)) }
    ensures usage { IsErrOf result AuditStatus.Usage → names_of words.now ≡ None }
    ensures usage_only { names_of words.now ≡ None → IsErrOf result AuditStatus.Usage }
    ensures unused { names_of words.now ≡ None → (shelf.new ≡ shelf.old) × (dump.new ≡ dump.old) }
    ensures no_roster { IfSome (roster_of words.now) (λ name. F.file shelf.old name ≡ missing →
        IsErrOf result AuditStatus.ReadFault) }
    ensures long { IsErrOf result AuditStatus.RosterLong →
        IfFile (roster_of words.now) (F.file shelf.old) (λ text. 1048576 < length text) }
    ensures long_only { IfFile (roster_of words.now) (F.file shelf.old) (λ text. 1048576 < length text →
        EndsUnlessMemory result AuditStatus.RosterLong ⊎ Rose (F.faults shelf.old) (F.faults shelf.new)) }
    ensures roster_fault { IfErr result (λ status. OnRosterFault status (λ line kind.
        IfFile (roster_of words.now) (F.file shelf.old) (λ text. roster text ≡ Err (record { line = line; kind = kind })))) }
    ensures roster_fault_only { IfFile (roster_of words.now) (F.file shelf.old) (λ text. length text ≤ 1048576 →
        IfErr (roster text) (λ fault. EndsUnlessMemory result (AuditStatus.RosterFault fault.line fault.kind)
        ⊎ Rose (F.faults shelf.old) (F.faults shelf.new))) }
    ensures no_out { IfRead (roster_of words.now) (F.file shelf.old) (λ told. IfSome (out_of words.now) (λ name.
        F.file shelf.old name ≡ missing → EndsUnlessMemory result AuditStatus.ReadFault)) }
    ensures out_long { IsErrOf result AuditStatus.OutLong →
        IfFile (out_of words.now) (F.file shelf.old) (λ octets. 1073741824 < length octets) }
    ensures out_long_only { IfRead (roster_of words.now) (F.file shelf.old) (λ told.
        IfFile (out_of words.now) (F.file shelf.old) (λ octets. 1073741824 < length octets →
        EndsUnlessMemory result AuditStatus.OutLong ⊎ Rose (F.faults shelf.old) (F.faults shelf.new))) }
    ensures untouched { IfErr result (λ status. IsBeforeSession status → dump.new ≡ dump.old) }
    ensures not_taken { F.faults shelf.old < F.faults shelf.new →
        IsErrOf result AuditStatus.ReadFault × (dump.new ≡ dump.old) }
    ensures session { IfAudit (roster_of words.now) (out_of words.now) (F.file shelf.old) (S.rest dump.old) (λ given octets.
        Finds given octets (S.rest dump.new) result) }
    ensures good { OnOk result (
        IfFile (roster_of words.now) (F.file shelf.old) (λ text. (length text ≤ 1048576) × IsOk (roster text))
        × IfFile (out_of words.now) (F.file shelf.old) (λ octets. length octets ≤ 1073741824)) }
    ensures read { IsErrOf result AuditStatus.ReadFault →
        Rose (F.faults shelf.old) (F.faults shelf.new) ⊎ Rose (S.faults dump.old) (S.faults dump.new) }
{
    if !are_names(words) {
        return Err(AuditStatus::Usage);
    }
    let text = take_roster(alloc, words, shelf)?;
    let roster = read_roster(alloc, &text)?;
    let octets = take_out(alloc, words, shelf)?;
    run(alloc, roster, octets, dump)
}

/// The verdict on octets, by where they first differ from the answer.
fn verdict(found: Option<Difference>) -> AuditStatus
    ensures value { result ≡ verdict_of found }
    ensures is_verdict { IsVerdict result }
{
    match found {
        None => AuditStatus::Yes,
        Some(Difference { at, part, place }) => AuditStatus::No { at, part, place },
    }
}

/// Writes the line of a status that is no verdict to `out`, tried once. Its failure changes no status.
pub fn report<K: Sink>(alloc: Global, out: &mut K, status: AuditStatus) -> AuditStatus
    ensures same { result ≡ status }
    ensures line { Tells (K.held out.old) (K.held out.new) (line_of status)
        (Rose (K.faults out.old) (K.faults out.new) ⊎ Rose (K.lacks out.old) (K.lacks out.new)) }
    ensures never_falls { K.faults out.old ≤ K.faults out.new }
    ensures lacks_never_fall { K.lacks out.old ≤ K.lacks out.new }
{
    tell_once(alloc, out, &status_line(status));
    status
}

/// Writes the verdict's line, and where that fails the line of the fault.
fn finish<K: Sink>(alloc: Global, out: &mut K, verdict: AuditStatus) -> AuditStatus
    requires { IsVerdict verdict }
    ensures same { IsVerdict result → result ≡ verdict }
    ensures ends { IsVerdict result ⊎ IsOutputEnd result }
    ensures write { result ≡ AuditStatus.WriteFault → Rose (K.faults out.old) (K.faults out.new) }
    ensures reported { Reported result (K.held out.old) (K.held out.new)
        (Rose (K.faults out.old) (K.faults out.new) ⊎ Rose (K.lacks out.old) (K.lacks out.new)) }
{
    let line = status_line(verdict);
    match write_all(alloc, out, line.as_str().as_bytes()) {
        Ok(()) => verdict,
        Err(fault) => report(alloc, out, AuditStatus::from(fault)),
    }
}
