//! The call that runs a session of the program's own making.
ghost use Rattle.std.specs.Prelude.{◌≡◌, ◌≢◌, ◌⊎◌, ◌≤◌, Some, None, IsSome, IfOk, IfErr, OnOk, OnErr, IfSome, IsErrOf};
ghost use Rattle.edge_io.specs.Told.{Grows, GrowsByFront, Rose};
ghost use Rattle.bridge_calls.specs.CommandLine.{demo_of};
ghost use Rattle.bridge_calls.specs.Causes.{IsUnlessMemory, EndsUnlessMemory, IsDemoEnd};
ghost use Rattle.session_edge.specs.Texts.{summary_line};
ghost use Rattle.bridge_calls.specs.Demo.{demo_summary, DemoEnds, Reports};

use crate::calls::report;
use crate::status::Status;
use crate::steps::{read_roster, run_session};
use demo_gen::{capture_is_whole, roster_is_lawful};
use edge_io::{CalmSink, CalmSource, Sink, Words, write_all};
use program_edge::{WordsFault, decimal, lend, operand};
use session_edge::summary_text;
use session_spec::Summary;
use std::alloc::Global;
use tick_core::Book;

/// The greatest number of a demo session.
const LAST_DEMO: u32 = 9_999;

/// Runs the demo session of a number, in memory: `demo NUMBER`.
///
/// `words` are those of the command line after the program's name. The summary's line is written to `out`, and the line of any
/// other end to `err`.
pub fn demo<K: Sink, E: Sink>(alloc: Global, words: &Words, out: &mut K, err: &mut E) -> Status
    // The words decide first, and without them nothing is used.
    ensures usage { result ≡ Status.Usage → demo_of words.now ≡ None }
    ensures usage_only { demo_of words.now ≡ None → IsUnlessMemory result Status.Usage }
    ensures unused { demo_of words.now ≡ None → out.new ≡ out.old }

    // Then the session, whatever ends it: what was written.
    ensures session { IfSome (demo_of words.now) (λ number.
        DemoEnds (summary_line (demo_summary number)) (K.held out.old) (K.held out.new) result) }

    // A failed call has its count, and there is no other end.
    ensures ends { IsDemoEnd result }
    ensures write { result ≡ Status.WriteFault → Rose (K.faults out.old) (K.faults out.new) }
    ensures complete { IsSome (demo_of words.now) →
        IsUnlessMemory result Status.Done ⊎ Rose (K.faults out.old) (K.faults out.new) }

    // What stands on the error stream.
    ensures reported { Reports result (E.held err.old) (E.held err.new)
        (Rose (E.faults err.old) (E.faults err.new) ⊎ Rose (E.lacks err.old) (E.lacks err.new)) }
{
    match work(alloc, words, out) {
        Ok(()) => Status::Done,
        Err(status) => report(alloc, err, status),
    }
}

/// The steps of the session, up to its summary's line.
fn work<K: Sink>(alloc: Global, words: &Words, out: &mut K) -> Result<(), Status>
    ensures some { OnOk result (IsSome (demo_of words.now)) }
    ensures usage { IsErrOf result Status.Usage → demo_of words.now ≡ None }
    ensures usage_only { demo_of words.now ≡ None → EndsUnlessMemory result Status.Usage }
    ensures unused { demo_of words.now ≡ None → out.new ≡ out.old }
    ensures whole { OnOk result (IfSome (demo_of words.now) (λ number.
        Grows (K.held out.old) (K.held out.new) (summary_line (demo_summary number)))) }
    ensures front { OnErr result (IfSome (demo_of words.now) (λ number.
        GrowsByFront (K.held out.old) (K.held out.new) (summary_line (demo_summary number)))) }
    ensures ends { IfErr result (λ status. status ≢ Status.Done × IsDemoEnd status) }
    ensures write { IsErrOf result Status.WriteFault → Rose (K.faults out.old) (K.faults out.new) }
{
    let number = take_number(alloc, words)?;
    let summary = run_demo(alloc, number)?;
    let line = summary_text(summary);
    Ok(write_all(alloc, out, line.as_str().as_bytes())?)
}

/// Takes the number that the words name.
fn take_number(alloc: Global, words: &Words) -> Result<u32, Status>
    ensures form { IfOk result (λ number. demo_of words.now ≡ Some number) }
    ensures bound { IfOk result (λ number. (1 ≤ number) × (number ≤ 9999)) }
    ensures ends { OnErr result (EndsUnlessMemory result Status.Usage) }
    ensures usage { IsErrOf result Status.Usage → demo_of words.now ≡ None }
{
    let words = lend(alloc, words)?;
    let word = operand(alloc, words.as_slice(), "demo")?;
    Ok(decimal(word, LAST_DEMO).ok_or(WordsFault::Usage)?)
}

/// Runs the session of a number over ends in memory.
fn run_demo(alloc: Global, number: u32) -> Result<Summary, Status>
    requires { (1 ≤ number) × (number ≤ 9999) }
    ensures summary { IfOk result (λ summary. summary ≡ demo_summary number) }
    ensures memory { IfErr result (λ status. status ≡ Status.Memory) }
{
    let session = demo_gen::session(alloc, number)?;
    roster_is_lawful();
    capture_is_whole();
    let roster = read_roster(alloc, &session.roster)?;
    let mut book = Book::new(alloc);
    let mut dump = CalmSource::new(session.dump);
    let mut out = CalmSink::new(alloc);
    run_session(alloc, roster, &mut book, &mut dump, &mut out)
}
