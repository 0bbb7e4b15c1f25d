//! The call that runs a session of a roster and a capture that it is given.
ghost use Rattle.std.specs.Prelude.{◌≡◌, ◌≢◌, ◌⊎◌, ◌<◌, ◌≤◌, ℕ, List, [], None, Some, Ok, Err, length, IsSome, IsOk, IsErr, IfOk, IfErr, OnOk, OnErr, IfSome, IsErrOf};
ghost use Rattle.edge_io.specs.Told.{Grows, Rose};
ghost use Rattle.edge_io.specs.File.{content, missing};
ghost use Rattle.rtp_dump.specs.Capture.{capture};
ghost use Rattle.roster_text.specs.Roster.{roster};
ghost use Rattle.session_spec.specs.Captured.{met, head_fault};
ghost use Rattle.desk_run.specs.BookSide.{StandsFor};
ghost use Rattle.bridge_calls.specs.CommandLine.{roster_of};
ghost use Rattle.session_edge.specs.Given.{IfRoster, IsNoRoster};
ghost use Rattle.bridge_calls.specs.Causes.{IsOutputEnd, IsBeforeOutput, IsUnlessMemory, EndsUnlessMemory, OnRosterFault};
ghost use Rattle.session_edge.specs.Texts.{summary_line};
ghost use Rattle.bridge_calls.specs.Texts.{line_of};
ghost use Rattle.program_edge.specs.Report.{Tells, TellsAfter};
ghost use Rattle.bridge_calls.specs.Report.{Reported};
ghost use Rattle.bridge_calls.specs.Ends.{IfSession, Ends, CallEnds, Wrote, fault_met};

use crate::forms::Alone;
use crate::status::Status;
use crate::steps::{read_roster, run_session, take_roster};
use crate::texts::fault_line;
use edge_io::{Shelf, Sink, Source, Words, write_all};
use program_edge::tell_once;
use session_edge::summary_text;
use session_spec::Summary;
use std::alloc::Global;
use tick_core::Book;

/// Runs the session of a roster: `alone ROSTER`.
///
/// `words` are those of the command line after the program's name, and `book` is one that nothing has happened to. The roster
/// is taken from `shelf`, the capture is read from `dump`, its answer is written to `out`, and what became of it to `err`, as
/// one line.
pub fn alone<S: Source, K: Sink, E: Sink, F: Shelf>(
    alloc: Global,
    words: &Words,
    book: &mut Book,
    shelf: &mut F,
    dump: &mut S,
    out: &mut K,
    err: &mut E,
) -> Status
    requires begun { StandsFor book.old [] }

    // The words decide first, and without them nothing is used.
    ensures usage { result ≡ Status.Usage → roster_of words.now ≡ None }
    ensures usage_only { roster_of words.now ≡ None → IsUnlessMemory result Status.Usage }
    ensures unused { roster_of words.now ≡ None →
        (shelf.new ≡ shelf.old) × (dump.new ≡ dump.old) × (out.new ≡ out.old) }

    // Then the roster: one that isn't there, one that is too long, and the first bad line.
    ensures no_roster { IfSome (roster_of words.now) (λ name. F.file shelf.old name ≡ missing →
        IsUnlessMemory result Status.ReadFault × (out.new ≡ out.old)) }
    ensures long { result ≡ Status.RosterLong →
        IfRoster (roster_of words.now) (F.file shelf.old) (λ text. 1048576 < length text) }
    ensures long_only { IfRoster (roster_of words.now) (F.file shelf.old) (λ text. 1048576 < length text →
        IsUnlessMemory result Status.RosterLong ⊎ Rose (F.faults shelf.old) (F.faults shelf.new)) }
    ensures roster_fault { OnRosterFault result (λ line kind.
        IfRoster (roster_of words.now) (F.file shelf.old) (λ text. roster text ≡ Err (record { line = line; kind = kind }))) }
    ensures roster_fault_only { IfRoster (roster_of words.now) (F.file shelf.old) (λ text. length text ≤ 1048576 →
        IfErr (roster text) (λ fault. IsUnlessMemory result (Status.RosterFault fault.line fault.kind)
        ⊎ Rose (F.faults shelf.old) (F.faults shelf.new))) }

    // Where there is no roster, nothing of the capture is taken and nothing is written.
    ensures no_session { IfRoster (roster_of words.now) (F.file shelf.old) (λ text. IsNoRoster text →
        (dump.new ≡ dump.old) × (out.new ≡ out.old)) }
    ensures not_taken { F.faults shelf.old < F.faults shelf.new →
        (result ≡ Status.ReadFault) × (dump.new ≡ dump.old) × (out.new ≡ out.old) }

    // Then the session, whatever ends it: what was written and taken.
    ensures session { IfSession (roster_of words.now) (F.file shelf.old) (S.rest dump.old) (λ given.
        CallEnds given (record { left = S.rest dump.new; old = K.held out.old; new = K.held out.new }) (λ f. StandsFor book.new f)
        (Rose (F.faults shelf.old) (F.faults shelf.new))
        (record {
          old = E.held err.old;
          new = E.held err.new;
          failed = (E.faults err.old, E.faults err.new);
          lacked = (E.lacks err.old, E.lacks err.new);
        }) result) }
    ensures good { result ≡ Status.Done → IfRoster (roster_of words.now) (F.file shelf.old) (λ text.
        (length text ≤ 1048576) × IsOk (roster text)) }
    ensures no_head { IfSession (roster_of words.now) (F.file shelf.old) (S.rest dump.old) (λ given.
        IsSome (head_fault given.bytes) → K.held out.new ≡ K.held out.old) }
    ensures whole { result ≡ Status.WriteFault →
        IfSession (roster_of words.now) (F.file shelf.old) (S.rest dump.old) (λ given.
        Rose (K.faults out.old) (K.faults out.new)
        ⊎ Wrote given (record { left = S.rest dump.new; old = K.held out.old; new = K.held out.new })) }

    // A session without a fault is run, and one with a fault ends at it, unless a call fails or there is no memory.
    ensures complete { IfSession (roster_of words.now) (F.file shelf.old) (S.rest dump.old) (λ given.
        fault_met given ≡ None → IsUnlessMemory result Status.Done
        ⊎ Rose (F.faults shelf.old) (F.faults shelf.new) ⊎ Rose (S.faults dump.old) (S.faults dump.new)
        ⊎ Rose (K.faults out.old) (K.faults out.new) ⊎ Rose (E.faults err.old) (E.faults err.new)) }
    ensures dump_fault_only { IfSession (roster_of words.now) (F.file shelf.old) (S.rest dump.old) (λ given.
        IfSome (fault_met given) (λ fault. IsUnlessMemory result (Status.DumpFault fault.at fault.kind)
        ⊎ Rose (F.faults shelf.old) (F.faults shelf.new) ⊎ Rose (S.faults dump.old) (S.faults dump.new)
        ⊎ Rose (K.faults out.old) (K.faults out.new))) }

    // A failed call has its count.
    ensures read { result ≡ Status.ReadFault →
        Rose (F.faults shelf.old) (F.faults shelf.new) ⊎ Rose (S.faults dump.old) (S.faults dump.new) }
    ensures write { result ≡ Status.WriteFault →
        Rose (K.faults out.old) (K.faults out.new) ⊎ Rose (E.faults err.old) (E.faults err.new) }
    ensures calm { IfSome (roster_of words.now) (λ name. (held : List ℕ) →
        F.file shelf.old name ≡ content held → F.calm shelf.old → F.faults shelf.new ≡ F.faults shelf.old) }

    // What stands on the ends before a session, and on the error stream.
    ensures untouched { IsBeforeOutput result → (dump.new ≡ dump.old) × (out.new ≡ out.old) }
    ensures reported { Reported result (E.held err.old) (E.held err.new)
        (Rose (E.faults err.old) (E.faults err.new) ⊎ Rose (E.lacks err.old) (E.lacks err.new)) }
{
    match work(alloc, words, book, shelf, dump, out) {
        Ok(summary) => finish(alloc, err, summary),
        Err(status) => report(alloc, err, status),
    }
}

/// The steps of the session, up to its summary.
fn work<S: Source, K: Sink, F: Shelf>(
    alloc: Global,
    words: &Words,
    book: &mut Book,
    shelf: &mut F,
    dump: &mut S,
    out: &mut K,
) -> Result<Summary, Status>
    requires begun { StandsFor book.old [] }
    ensures not_done { IfErr result (λ status. status ≢ Status.Done) }
    ensures some { OnOk result (IsSome (roster_of words.now)) }
    ensures usage { IsErrOf result Status.Usage → roster_of words.now ≡ None }
    ensures usage_only { roster_of words.now ≡ None → EndsUnlessMemory result Status.Usage }
    ensures unused { roster_of words.now ≡ None →
        (shelf.new ≡ shelf.old) × (dump.new ≡ dump.old) × (out.new ≡ out.old) }
    ensures no_roster { IfSome (roster_of words.now) (λ name. F.file shelf.old name ≡ missing →
        EndsUnlessMemory result Status.ReadFault × (out.new ≡ out.old)) }
    ensures long { IsErrOf result Status.RosterLong →
        IfRoster (roster_of words.now) (F.file shelf.old) (λ text. 1048576 < length text) }
    ensures long_only { IfRoster (roster_of words.now) (F.file shelf.old) (λ text. 1048576 < length text →
        EndsUnlessMemory result Status.RosterLong ⊎ Rose (F.faults shelf.old) (F.faults shelf.new)) }
    ensures roster_fault { IfErr result (λ status. OnRosterFault status (λ line kind.
        IfRoster (roster_of words.now) (F.file shelf.old) (λ text. roster text ≡ Err (record { line = line; kind = kind })))) }
    ensures roster_fault_only { IfRoster (roster_of words.now) (F.file shelf.old) (λ text. length text ≤ 1048576 →
        IfErr (roster text) (λ fault. EndsUnlessMemory result (Status.RosterFault fault.line fault.kind)
        ⊎ Rose (F.faults shelf.old) (F.faults shelf.new))) }
    ensures no_session { IfRoster (roster_of words.now) (F.file shelf.old) (λ text. IsNoRoster text →
        IsErr result × (dump.new ≡ dump.old) × (out.new ≡ out.old)) }
    ensures not_taken { F.faults shelf.old < F.faults shelf.new →
        IsErrOf result Status.ReadFault × (dump.new ≡ dump.old) × (out.new ≡ out.old) }
    ensures session { IfSession (roster_of words.now) (F.file shelf.old) (S.rest dump.old) (λ given.
        Ends given (record { left = S.rest dump.new; old = K.held out.old; new = K.held out.new }) (λ f. StandsFor book.new f)
        (Rose (F.faults shelf.old) (F.faults shelf.new)) result) }
    ensures good { OnOk result (IfRoster (roster_of words.now) (F.file shelf.old) (λ text.
        (length text ≤ 1048576) × IsOk (roster text))) }
    ensures read { IsErrOf result Status.ReadFault →
        Rose (F.faults shelf.old) (F.faults shelf.new) ⊎ Rose (S.faults dump.old) (S.faults dump.new) }
    ensures write { IsErrOf result Status.WriteFault → Rose (K.faults out.old) (K.faults out.new) }
    ensures calm { IfSome (roster_of words.now) (λ name. (held : List ℕ) →
        F.file shelf.old name ≡ content held → F.calm shelf.old → F.faults shelf.new ≡ F.faults shelf.old) }
    ensures untouched { IfErr result (λ status. IsBeforeOutput status → (dump.new ≡ dump.old) × (out.new ≡ out.old)) }
{
    let text = take_roster::<Alone, F>(alloc, words, shelf)?;
    let roster = read_roster(alloc, &text)?;
    run_session(alloc, roster, book, dump, out)
}

/// Writes the line of a status other than Done to `err`, tried once. Its failure changes no status.
pub fn report<E: Sink>(alloc: Global, err: &mut E, status: Status) -> Status
    ensures same { result ≡ status }
    ensures line { Tells (E.held err.old) (E.held err.new) (line_of status)
        (Rose (E.faults err.old) (E.faults err.new) ⊎ Rose (E.lacks err.old) (E.lacks err.new)) }
    ensures never_falls { E.faults err.old ≤ E.faults err.new }
    ensures lacks_never_fall { E.lacks err.old ≤ E.lacks err.new }
{
    tell_once(alloc, err, &fault_line(status));
    status
}

/// Writes the summary's line, and where that fails the line of the fault.
pub fn finish<E: Sink>(alloc: Global, err: &mut E, summary: Summary) -> Status
    ensures done { result ≡ Status.Done →
        Grows (E.held err.old) (E.held err.new) (summary_line summary) }
    ensures ends { (result ≡ Status.Done) ⊎ IsOutputEnd result }
    ensures write { result ≡ Status.WriteFault → Rose (E.faults err.old) (E.faults err.new) }
    ensures fault { result ≢ Status.Done →
        TellsAfter (E.held err.old) (E.held err.new) (summary_line summary) (line_of result)
        (Rose (E.faults err.old) (E.faults err.new) ⊎ Rose (E.lacks err.old) (E.lacks err.new)) }
    ensures rose { result ≢ Status.Done →
        Rose (E.faults err.old) (E.faults err.new) ⊎ Rose (E.lacks err.old) (E.lacks err.new) }
{
    let line = summary_text(summary);
    match write_all(alloc, err, line.as_str().as_bytes()) {
        Ok(()) => Status::Done,
        Err(fault) => report(alloc, err, Status::from(fault)),
    }
}
