//! The call that runs a session of a roster and a capture beside workers, each on a thread of its own.
ghost use Rattle.std.specs.Prelude.{◌≡◌, ◌≢◌, ◌⊎◌, ◌<◌, ◌≤◌, ℕ, List, [], None, Some, Ok, Err, length, IsSome, IsOk, IsErr, IfOk, IfErr, OnOk, OnErr, IfSome, IsErrOf};
ghost use Rattle.edge_io.specs.Told.{Grows, Rose};
ghost use Rattle.edge_io.specs.File.{content, missing};
ghost use Rattle.rtp_dump.specs.Capture.{capture};
ghost use Rattle.roster_text.specs.Roster.{roster, ticks_of};
ghost use Rattle.session_spec.specs.Captured.{met, head_fault};
ghost use Rattle.desk_run.specs.BookSide.{StandsFor};
ghost use Rattle.desk_shared.specs.Shared.{WentAlong};
ghost use Rattle.bridge_calls.specs.CommandLine.{shared_roster_of};
ghost use Rattle.session_edge.specs.Given.{IfRoster, IsNoRoster};
ghost use Rattle.bridge_calls.specs.Causes.{IsOutputEnd, IsBeforeOutput, IsUnlessMemory, EndsUnlessMemory, OnRosterFault, IsRunEnd};
ghost use Rattle.session_edge.specs.Texts.{summary_line};
ghost use Rattle.bridge_calls.specs.Texts.{line_of};
ghost use Rattle.program_edge.specs.Report.{Tells, TellsAfter};
ghost use Rattle.bridge_calls.specs.Report.{Reported};
ghost use Rattle.bridge_calls.specs.Ends.{IfSession, Ends, CallEnds, Wrote, fault_met};

use crate::calls::{finish, report};
use crate::forms::{Beside, worker_count};
use crate::status::Status;
use crate::steps::{read_roster, take_roster};
use desk_run::RunEnd;
use desk_shared::run_shared;
use edge_io::{Shelf, Sink, Source, Words};
use enc_worker::Gate;
use roster_desk::RosterDesk;
use roster_text::Roster;
use session_spec::Summary;
use std::alloc::Global;
use std::sync::Wait;
use std::thread::Threads;
use tick_core::Book;

/// Runs the session of a roster beside workers: `shared N ROSTER`. What it writes, and how it ends, is what `alone` promises, for
/// any number of workers and any gate. It waits: nothing is said of when it returns.
///
/// N is how many workers there are, each on a thread of its own: 1 to 16, in decimal digits without a leading zero. `words` are those
/// of the command line after the program's name, and `book` is one that nothing has happened to. The roster is taken from `shelf`, the
/// capture is read from `dump`, its answer is written to `out`, and what became of it to `err`, as one line. `gate` is called by
/// whichever thread joins a listener, claims a run or has published one.
pub fn shared<R: Threads + Wait + Sync, S: Source, K: Sink, E: Sink, F: Shelf, G: Gate>(
    rt: &R,
    alloc: Global,
    words: &Words,
    book: &mut Book,
    shelf: &mut F,
    dump: &mut S,
    out: &mut K,
    err: &mut E,
    gate: &G,
) -> Status
    requires begun { StandsFor book.old [] }

    // The words decide first, and without them nothing is used.
    ensures usage { result ≡ Status.Usage → shared_roster_of words.now ≡ None }
    ensures usage_only { shared_roster_of words.now ≡ None → IsUnlessMemory result Status.Usage }
    ensures unused { shared_roster_of words.now ≡ None →
        (shelf.new ≡ shelf.old) × (dump.new ≡ dump.old) × (out.new ≡ out.old) }

    // Then the roster: one that isn't there, one that is too long, and the first bad line.
    ensures no_roster { IfSome (shared_roster_of words.now) (λ name. F.file shelf.old name ≡ missing →
        IsUnlessMemory result Status.ReadFault × (out.new ≡ out.old)) }
    ensures long { result ≡ Status.RosterLong →
        IfRoster (shared_roster_of words.now) (F.file shelf.old) (λ text. 1048576 < length text) }
    ensures long_only { IfRoster (shared_roster_of words.now) (F.file shelf.old) (λ text. 1048576 < length text →
        IsUnlessMemory result Status.RosterLong ⊎ Rose (F.faults shelf.old) (F.faults shelf.new)) }
    ensures roster_fault { OnRosterFault result (λ line kind.
        IfRoster (shared_roster_of words.now) (F.file shelf.old) (λ text. roster text ≡ Err (record { line = line; kind = kind }))) }
    ensures roster_fault_only { IfRoster (shared_roster_of words.now) (F.file shelf.old) (λ text. length text ≤ 1048576 →
        IfErr (roster text) (λ fault. IsUnlessMemory result (Status.RosterFault fault.line fault.kind)
        ⊎ Rose (F.faults shelf.old) (F.faults shelf.new))) }

    // Where there is no roster, nothing of the capture is taken and nothing is written.
    ensures no_session { IfRoster (shared_roster_of words.now) (F.file shelf.old) (λ text. IsNoRoster text →
        (dump.new ≡ dump.old) × (out.new ≡ out.old)) }
    ensures not_taken { F.faults shelf.old < F.faults shelf.new →
        (result ≡ Status.ReadFault) × (dump.new ≡ dump.old) × (out.new ≡ out.old) }

    // Then the session, whatever ends it: what was written and taken.
    ensures session { IfSession (shared_roster_of words.now) (F.file shelf.old) (S.rest dump.old) (λ given.
        CallEnds given (record { left = S.rest dump.new; old = K.held out.old; new = K.held out.new }) (λ f. WentAlong book.new f)
        (Rose (F.faults shelf.old) (F.faults shelf.new))
        (record {
          old = E.held err.old;
          new = E.held err.new;
          failed = (E.faults err.old, E.faults err.new);
          lacked = (E.lacks err.old, E.lacks err.new);
        }) result) }
    ensures good { result ≡ Status.Done → IfRoster (shared_roster_of words.now) (F.file shelf.old) (λ text.
        (length text ≤ 1048576) × IsOk (roster text)) }
    ensures no_head { IfSession (shared_roster_of words.now) (F.file shelf.old) (S.rest dump.old) (λ given.
        IsSome (head_fault given.bytes) → K.held out.new ≡ K.held out.old) }
    ensures whole { result ≡ Status.WriteFault →
        IfSession (shared_roster_of words.now) (F.file shelf.old) (S.rest dump.old) (λ given.
        Rose (K.faults out.old) (K.faults out.new)
        ⊎ Wrote given (record { left = S.rest dump.new; old = K.held out.old; new = K.held out.new })) }

    // A session without a fault is run, and one with a fault ends at it, unless a call fails or there is no memory.
    ensures complete { IfSession (shared_roster_of words.now) (F.file shelf.old) (S.rest dump.old) (λ given.
        fault_met given ≡ None → IsUnlessMemory result Status.Done
        ⊎ Rose (F.faults shelf.old) (F.faults shelf.new) ⊎ Rose (S.faults dump.old) (S.faults dump.new)
        ⊎ Rose (K.faults out.old) (K.faults out.new) ⊎ Rose (E.faults err.old) (E.faults err.new)) }
    ensures dump_fault_only { IfSession (shared_roster_of words.now) (F.file shelf.old) (S.rest dump.old) (λ given.
        IfSome (fault_met given) (λ fault. IsUnlessMemory result (Status.DumpFault fault.at fault.kind)
        ⊎ Rose (F.faults shelf.old) (F.faults shelf.new) ⊎ Rose (S.faults dump.old) (S.faults dump.new)
        ⊎ Rose (K.faults out.old) (K.faults out.new))) }

    // A failed call has its count.
    ensures read { result ≡ Status.ReadFault →
        Rose (F.faults shelf.old) (F.faults shelf.new) ⊎ Rose (S.faults dump.old) (S.faults dump.new) }
    ensures write { result ≡ Status.WriteFault →
        Rose (K.faults out.old) (K.faults out.new) ⊎ Rose (E.faults err.old) (E.faults err.new) }
    ensures calm { IfSome (shared_roster_of words.now) (λ name. (held : List ℕ) →
        F.file shelf.old name ≡ content held → F.calm shelf.old → F.faults shelf.new ≡ F.faults shelf.old) }

    // What stands on the ends before a session, and on the error stream.
    ensures untouched { IsBeforeOutput result → (dump.new ≡ dump.old) × (out.new ≡ out.old) }
    ensures reported { Reported result (E.held err.old) (E.held err.new)
        (Rose (E.faults err.old) (E.faults err.new) ⊎ Rose (E.lacks err.old) (E.lacks err.new)) }
{
    match work_beside(rt, alloc, words, book, shelf, dump, out, gate) {
        Ok(summary) => finish(alloc, err, summary),
        Err(status) => report(alloc, err, status),
    }
}

/// The steps of the session, up to its summary.
fn work_beside<R: Threads + Wait + Sync, S: Source, K: Sink, F: Shelf, G: Gate>(
    rt: &R,
    alloc: Global,
    words: &Words,
    book: &mut Book,
    shelf: &mut F,
    dump: &mut S,
    out: &mut K,
    gate: &G,
) -> Result<Summary, Status>
    requires begun { StandsFor book.old [] }
    ensures not_done { IfErr result (λ status. status ≢ Status.Done) }
    ensures some { OnOk result (IsSome (shared_roster_of words.now)) }
    ensures usage { IsErrOf result Status.Usage → shared_roster_of words.now ≡ None }
    ensures usage_only { shared_roster_of words.now ≡ None → EndsUnlessMemory result Status.Usage }
    ensures unused { shared_roster_of words.now ≡ None →
        (shelf.new ≡ shelf.old) × (dump.new ≡ dump.old) × (out.new ≡ out.old) }
    ensures no_roster { IfSome (shared_roster_of words.now) (λ name. F.file shelf.old name ≡ missing →
        EndsUnlessMemory result Status.ReadFault × (out.new ≡ out.old)) }
    ensures long { IsErrOf result Status.RosterLong →
        IfRoster (shared_roster_of words.now) (F.file shelf.old) (λ text. 1048576 < length text) }
    ensures long_only { IfRoster (shared_roster_of words.now) (F.file shelf.old) (λ text. 1048576 < length text →
        EndsUnlessMemory result Status.RosterLong ⊎ Rose (F.faults shelf.old) (F.faults shelf.new)) }
    ensures roster_fault { IfErr result (λ status. OnRosterFault status (λ line kind.
        IfRoster (shared_roster_of words.now) (F.file shelf.old) (λ text. roster text ≡ Err (record { line = line; kind = kind })))) }
    ensures roster_fault_only { IfRoster (shared_roster_of words.now) (F.file shelf.old) (λ text. length text ≤ 1048576 →
        IfErr (roster text) (λ fault. EndsUnlessMemory result (Status.RosterFault fault.line fault.kind)
        ⊎ Rose (F.faults shelf.old) (F.faults shelf.new))) }
    ensures no_session { IfRoster (shared_roster_of words.now) (F.file shelf.old) (λ text. IsNoRoster text →
        IsErr result × (dump.new ≡ dump.old) × (out.new ≡ out.old)) }
    ensures not_taken { F.faults shelf.old < F.faults shelf.new →
        IsErrOf result Status.ReadFault × (dump.new ≡ dump.old) × (out.new ≡ out.old) }
    ensures session { IfSession (shared_roster_of words.now) (F.file shelf.old) (S.rest dump.old) (λ given.
        Ends given (record { left = S.rest dump.new; old = K.held out.old; new = K.held out.new }) (λ f. WentAlong book.new f)
        (Rose (F.faults shelf.old) (F.faults shelf.new)) result) }
    ensures good { OnOk result (IfRoster (shared_roster_of words.now) (F.file shelf.old) (λ text.
        (length text ≤ 1048576) × IsOk (roster text))) }
    ensures read { IsErrOf result Status.ReadFault →
        Rose (F.faults shelf.old) (F.faults shelf.new) ⊎ Rose (S.faults dump.old) (S.faults dump.new) }
    ensures write { IsErrOf result Status.WriteFault → Rose (K.faults out.old) (K.faults out.new) }
    ensures calm { IfSome (shared_roster_of words.now) (λ name. (held : List ℕ) →
        F.file shelf.old name ≡ content held → F.calm shelf.old → F.faults shelf.new ≡ F.faults shelf.old) }
    ensures untouched { IfErr result (λ status. IsBeforeOutput status → (dump.new ≡ dump.old) × (out.new ≡ out.old)) }
{
    let Some(workers) = worker_count(words) else {
        return Err(Status::Usage);
    };
    let text = take_roster::<Beside, F>(alloc, words, shelf)?;
    let roster = read_roster(alloc, &text)?;
    run_session_beside(rt, alloc, workers, roster, book, dump, out, gate)
}

/// Runs the session of a roster over a capture, its runs made by so many workers, and writes its answer.
fn run_session_beside<R: Threads + Wait + Sync, S: Source, K: Sink, G: Gate>(
    rt: &R,
    alloc: Global,
    workers: u32,
    roster: Roster,
    book: &mut Book,
    dump: &mut S,
    out: &mut K,
    gate: &G,
) -> Result<Summary, Status>
    requires few { (0 < workers) × (workers ≤ 16) }
    requires begun { StandsFor book.old [] }
    ensures told { IfSome (S.rest dump.old) (λ bytes.
        Ends (record { plan = roster.timed; ticks = ticks_of roster.end; bytes = bytes })
        (record { left = S.rest dump.new; old = K.held out.old; new = K.held out.new }) (λ f. WentAlong book.new f) ⊥ result) }
    ensures ends { IfErr result IsRunEnd }
    ensures read { IsErrOf result Status.ReadFault → Rose (S.faults dump.old) (S.faults dump.new) }
    ensures write { IsErrOf result Status.WriteFault → Rose (K.faults out.old) (K.faults out.new) }
{
    let ticks = roster.ticks();
    let mut desk = RosterDesk::new(alloc, roster);
    match run_shared(rt, alloc, workers, ticks, &mut desk, book, dump, out, gate) {
        RunEnd::Done(summary) => Ok(summary),
        RunEnd::Dump { at, kind } => Err(Status::DumpFault { at, kind }),
        RunEnd::Read => Err(Status::ReadFault),
        RunEnd::Write => Err(Status::WriteFault),
        RunEnd::Memory => Err(Status::Memory),
    }
}
