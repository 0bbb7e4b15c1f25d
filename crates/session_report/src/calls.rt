//! The call that says of a session what its summary leaves out.
ghost use Rattle.std.specs.Prelude.{◌≡◌, ◌≢◌, ◌⊎◌, ◌<◌, ◌≤◌, None, Ok, Err, length, IsSome, IsOk, IfOk, IfErr, OnOk, IfSome, IsErrOf};
ghost use Rattle.edge_io.specs.Told.{Rose, Grows, GrowsByFront};
ghost use Rattle.edge_io.specs.File.{missing};
ghost use Rattle.roster_text.specs.Roster.{roster};
ghost use Rattle.program_edge.specs.Report.{Tells};
ghost use Rattle.session_edge.specs.Given.{IfRoster};
ghost use Rattle.session_report.specs.CommandLine.{form_of, roster_of};
ghost use Rattle.session_report.specs.Given.{IfSession};
ghost use Rattle.session_report.specs.Causes.{IsBeforeSession, IsFaultEnd, IsOutputEnd, IsUnlessMemory, EndsUnlessMemory, OnRosterFault};
ghost use Rattle.session_report.specs.Texts.{line_of};
ghost use Rattle.session_account.specs.Document.{document};
ghost use Rattle.session_report.specs.Ends.{Finds, CallReports, Told, fault_met};

use crate::status::ReportStatus;
use crate::steps::{read_roster, run, take_roster};
use crate::words::{form, status_line};
use edge_io::{Shelf, Sink, Source, Words, write_all};
use program_edge::tell_once;
use session_account::{Form, Report};
use std::alloc::Global;

/// Says of the session of a roster what its summary leaves out: `ROSTER`, or `json ROSTER`.
///
/// `words` are those of the command line after the program's name. The roster is taken from `shelf`, the capture is read from `dump`, up
/// to the session's end, the report is written to `out`, and where there is none, why, as one line to `err`.
pub fn report<S: Source, K: Sink, E: Sink, F: Shelf>(
    alloc: Global,
    words: &Words,
    shelf: &mut F,
    dump: &mut S,
    out: &mut K,
    err: &mut E,
) -> ReportStatus
    // The words decide first, and without them nothing is read.
    ensures usage { result ≡ ReportStatus.Usage → form_of words.now ≡ None }
    ensures usage_only { form_of words.now ≡ None → result ≡ ReportStatus.Usage }
    ensures unused { form_of words.now ≡ None → (shelf.new ≡ shelf.old) × (dump.new ≡ dump.old) × (out.new ≡ out.old) }

    // Then the roster: one that isn't there, one that is too long, and the first bad line.
    ensures no_roster { IfSome (roster_of words.now) (λ name. F.file shelf.old name ≡ missing →
        (result ≡ ReportStatus.ReadFault) × (out.new ≡ out.old)) }
    ensures long { result ≡ ReportStatus.RosterLong →
        IfRoster (roster_of words.now) (F.file shelf.old) (λ text. 1048576 < length text) }
    ensures long_only { IfRoster (roster_of words.now) (F.file shelf.old) (λ text. 1048576 < length text →
        IsUnlessMemory result ReportStatus.RosterLong ⊎ Rose (F.faults shelf.old) (F.faults shelf.new)) }
    ensures roster_fault { OnRosterFault result (λ line kind.
        IfRoster (roster_of words.now) (F.file shelf.old) (λ text. roster text ≡ Err (record { line = line; kind = kind }))) }
    ensures roster_fault_only { IfRoster (roster_of words.now) (F.file shelf.old) (λ text. length text ≤ 1048576 →
        IfErr (roster text) (λ fault. IsUnlessMemory result (ReportStatus.RosterFault fault.line fault.kind)
        ⊎ Rose (F.faults shelf.old) (F.faults shelf.new))) }

    // Before the session nothing of the capture is taken, and nothing is written.
    ensures untouched { IsBeforeSession result → (dump.new ≡ dump.old) × (out.new ≡ out.old) }
    ensures not_taken { F.faults shelf.old < F.faults shelf.new →
        (result ≡ ReportStatus.ReadFault) × (dump.new ≡ dump.old) × (out.new ≡ out.old) }

    // Then the session: a fault is the one that the capture meets, and a report says what the session's definitions give.
    ensures session { IfSession (roster_of words.now) (F.file shelf.old) (S.rest dump.old) (λ given. IfSome (form_of words.now) (λ form.
        CallReports given form (S.rest dump.new) (record { old = K.held out.old; new = K.held out.new }) result)) }
    ensures good { result ≡ ReportStatus.Done → IfRoster (roster_of words.now) (F.file shelf.old) (λ text.
        (length text ≤ 1048576) × IsOk (roster text)) }

    // A session without a fault comes to its report, and one with a fault ends at it, unless a call fails or there is no memory.
    ensures complete { IfSession (roster_of words.now) (F.file shelf.old) (S.rest dump.old) (λ given.
        fault_met given ≡ None → IsUnlessMemory result ReportStatus.Done
        ⊎ Rose (F.faults shelf.old) (F.faults shelf.new) ⊎ Rose (S.faults dump.old) (S.faults dump.new)
        ⊎ Rose (K.faults out.old) (K.faults out.new)) }
    ensures dump_fault_only { IfSession (roster_of words.now) (F.file shelf.old) (S.rest dump.old) (λ given.
        IfSome (fault_met given) (λ fault. IsUnlessMemory result (ReportStatus.DumpFault fault.at fault.kind)
        ⊎ Rose (F.faults shelf.old) (F.faults shelf.new) ⊎ Rose (S.faults dump.old) (S.faults dump.new))) }

    // A failed call has its count.
    ensures read { result ≡ ReportStatus.ReadFault →
        Rose (F.faults shelf.old) (F.faults shelf.new) ⊎ Rose (S.faults dump.old) (S.faults dump.new) }
    ensures write { result ≡ ReportStatus.WriteFault → Rose (K.faults out.old) (K.faults out.new) }

    // What stands on the error stream.
    ensures told { Told result (E.held err.old) (E.held err.new)
        (Rose (E.faults err.old) (E.faults err.new) ⊎ Rose (E.lacks err.old) (E.lacks err.new)) }
{
    let Some(form) = form(words) else {
        return tell(alloc, err, ReportStatus::Usage);
    };
    match work(alloc, words, shelf, dump) {
        Ok(report) => finish(alloc, out, err, form, &report),
        Err(status) => tell(alloc, err, status),
    }
}

/// The steps up to the report.
fn work<S: Source, F: Shelf>(
    alloc: Global,
    words: &Words,
    shelf: &mut F,
    dump: &mut S,
) -> Result<Report, ReportStatus>
    requires named { IsSome (form_of words.now) }
    ensures fault_ends { IfErr result IsFaultEnd }
    ensures no_usage { IfErr result (λ status. status ≢ ReportStatus.Usage) }
    ensures no_roster { IfSome (roster_of words.now) (λ name. F.file shelf.old name ≡ missing →
        IsErrOf result ReportStatus.ReadFault) }
    ensures long { IsErrOf result ReportStatus.RosterLong →
        IfRoster (roster_of words.now) (F.file shelf.old) (λ text. 1048576 < length text) }
    ensures long_only { IfRoster (roster_of words.now) (F.file shelf.old) (λ text. 1048576 < length text →
        EndsUnlessMemory result ReportStatus.RosterLong ⊎ Rose (F.faults shelf.old) (F.faults shelf.new)) }
    ensures roster_fault { IfErr result (λ status. OnRosterFault status (λ line kind.
        IfRoster (roster_of words.now) (F.file shelf.old) (λ text. roster text ≡ Err (record { line = line; kind = kind })))) }
    ensures roster_fault_only { IfRoster (roster_of words.now) (F.file shelf.old) (λ text. length text ≤ 1048576 →
        IfErr (roster text) (λ fault. EndsUnlessMemory result (ReportStatus.RosterFault fault.line fault.kind)
        ⊎ Rose (F.faults shelf.old) (F.faults shelf.new))) }
    ensures untouched { IfErr result (λ status. IsBeforeSession status → dump.new ≡ dump.old) }
    ensures not_taken { F.faults shelf.old < F.faults shelf.new →
        IsErrOf result ReportStatus.ReadFault × (dump.new ≡ dump.old) }
    ensures session { IfSession (roster_of words.now) (F.file shelf.old) (S.rest dump.old) (λ given.
        Finds given (S.rest dump.new) result) }
    ensures good { OnOk result (IfRoster (roster_of words.now) (F.file shelf.old) (λ text.
        (length text ≤ 1048576) × IsOk (roster text))) }
    ensures read { IsErrOf result ReportStatus.ReadFault →
        Rose (F.faults shelf.old) (F.faults shelf.new) ⊎ Rose (S.faults dump.old) (S.faults dump.new) }
{
    let text = take_roster(alloc, words, shelf)?;
    let roster = read_roster(alloc, &text)?;
    run(alloc, roster, dump)
}

/// Writes the line of a status other than Done to `err`, tried once. Its failure changes no status.
pub fn tell<E: Sink>(alloc: Global, err: &mut E, status: ReportStatus) -> ReportStatus
    ensures same { result ≡ status }
    ensures line { Tells (E.held err.old) (E.held err.new) (line_of status)
        (Rose (E.faults err.old) (E.faults err.new) ⊎ Rose (E.lacks err.old) (E.lacks err.new)) }
{
    tell_once(alloc, err, &status_line(status));
    status
}

/// Writes a report to `out`, and where that fails the line of the fault to `err`.
fn finish<K: Sink, E: Sink>(
    alloc: Global,
    out: &mut K,
    err: &mut E,
    form: Form,
    report: &Report,
) -> ReportStatus
    ensures whole { result ≡ ReportStatus.Done → Grows (K.held out.old) (K.held out.new) (document form report.now) }
    ensures front { IsOutputEnd result → GrowsByFront (K.held out.old) (K.held out.new) (document form report.now) }
    ensures ends { (result ≡ ReportStatus.Done) ⊎ IsOutputEnd result }
    ensures write { result ≡ ReportStatus.WriteFault → Rose (K.faults out.old) (K.faults out.new) }
    ensures told { Told result (E.held err.old) (E.held err.new)
        (Rose (E.faults err.old) (E.faults err.new) ⊎ Rose (E.lacks err.old) (E.lacks err.new)) }
{
    match report.text(alloc, form) {
        Ok(text) => match write_all(alloc, out, text.as_slice()) {
            Ok(()) => ReportStatus::Done,
            Err(fault) => tell(alloc, err, ReportStatus::from(fault)),
        },
        Err(fault) => tell(alloc, err, ReportStatus::from(fault)),
    }
}
