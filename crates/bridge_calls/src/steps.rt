//! The steps of a session, in the order of work: each goes on, or ends it with a status.
ghost use Rattle.std.specs.Prelude.{◌≡◌, ◌⊎◌, ◌<◌, ◌≤◌, ℕ, List, [], None, Some, Ok, Err, length, IsSome, IfOk, IfErr, OnOk, OnErr, IfSome, IsErrOf};
ghost use Rattle.edge_io.specs.Told.{Rose};
ghost use Rattle.edge_io.specs.File.{content, missing};
ghost use Rattle.roster_text.specs.Roster.{roster, ticks_of};
ghost use Rattle.desk_run.specs.BookSide.{StandsFor};
ghost use Rattle.session_edge.specs.Given.{IfRoster};
ghost use Rattle.bridge_calls.specs.Ends.{Ends};
ghost use Rattle.bridge_calls.specs.Causes.{EndsUnlessMemory, IsTakeEnd, IsRosterEnd, IsRunEnd, OnRosterFault};

use crate::forms::Form;
use crate::status::Status;
use desk_run::{RunEnd, run_alone};
use edge_io::{Octets, Shelf, Sink, Source, Words};
use program_edge::lend;
use roster_desk::RosterDesk;
use roster_text::Roster;
use session_edge::MAX_ROSTER_LEN;
use session_spec::Summary;
use std::alloc::Global;
use tick_core::Book;

/// Takes the roster that the words name.
pub fn take_roster<W: Form, F: Shelf>(
    alloc: Global,
    words: &Words,
    shelf: &mut F,
) -> Result<Octets, Status>
    ensures form { OnOk result (IsSome (W.names words.now)) }
    ensures whole { IfOk result (λ octets.
        IfRoster (W.names words.now) (F.file shelf.old) (λ roster. octets ≡ roster)) }

    ensures ends { IfErr result IsTakeEnd }
    ensures usage { IsErrOf result Status.Usage → W.names words.now ≡ None }
    ensures usage_only { W.names words.now ≡ None → EndsUnlessMemory result Status.Usage }
    ensures unused { W.names words.now ≡ None → shelf.new ≡ shelf.old }
    ensures no_roster { IfSome (W.names words.now) (λ name. F.file shelf.old name ≡ missing →
        EndsUnlessMemory result Status.ReadFault) }
    ensures short { IfOk result (λ octets. length octets ≤ 1048576) }
    ensures long { IsErrOf result Status.RosterLong →
        IfRoster (W.names words.now) (F.file shelf.old) (λ text. 1048576 < length text) }
    ensures long_only { IfRoster (W.names words.now) (F.file shelf.old) (λ text. 1048576 < length text →
        EndsUnlessMemory result Status.RosterLong ⊎ Rose (F.faults shelf.old) (F.faults shelf.new)) }
    ensures read { IsErrOf result Status.ReadFault →
        Rose (F.faults shelf.old) (F.faults shelf.new) }
    ensures read_only { F.faults shelf.old < F.faults shelf.new → IsErrOf result Status.ReadFault }

    ensures calm { IfSome (W.names words.now) (λ name. (held : List ℕ) →
        F.file shelf.old name ≡ content held → F.calm shelf.old →
        F.faults shelf.new ≡ F.faults shelf.old) }
    ensures stays_calm { F.calm shelf.old → F.calm shelf.new }
{
    let words = lend(alloc, words)?;
    let name = W::name(alloc, words.as_slice())?;
    Ok(shelf.take(alloc, name, MAX_ROSTER_LEN)?)
}

/// Reads the roster.
pub fn read_roster(alloc: Global, text: &Octets) -> Result<Roster, Status>
    requires short { length text.now ≤ 1048576 }
    ensures ok { IfOk result (λ told. roster text.now ≡ Ok told) }
    ensures ends { IfErr result IsRosterEnd }
    ensures fault { IfErr result (λ status. OnRosterFault status (λ line kind. roster text.now ≡ Err (record { line = line; kind = kind }))) }
{
    Ok(roster_text::read(alloc, text.as_slice())?)
}

/// Runs the session of a roster over a capture, and writes its answer.
pub fn run_session<S: Source, K: Sink>(
    alloc: Global,
    roster: Roster,
    book: &mut Book,
    dump: &mut S,
    out: &mut K,
) -> Result<Summary, Status>
    requires begun { StandsFor book.old [] }
    ensures told { IfSome (S.rest dump.old) (λ bytes.
        Ends (record { plan = roster.timed; ticks = ticks_of roster.end; bytes = bytes })
        (record { left = S.rest dump.new; old = K.held out.old; new = K.held out.new }) (λ f. StandsFor book.new f) ⊥ result) }
    ensures ends { IfErr result IsRunEnd }
    ensures read { IsErrOf result Status.ReadFault → Rose (S.faults dump.old) (S.faults dump.new) }
    ensures write { IsErrOf result Status.WriteFault → Rose (K.faults out.old) (K.faults out.new) }
{
    let ticks = roster.ticks();
    let mut desk = RosterDesk::new(alloc, roster);
    match run_alone(alloc, ticks, &mut desk, book, dump, out) {
        RunEnd::Done(summary) => Ok(summary),
        RunEnd::Dump { at, kind } => Err(Status::DumpFault { at, kind }),
        RunEnd::Read => Err(Status::ReadFault),
        RunEnd::Write => Err(Status::WriteFault),
        RunEnd::Memory => Err(Status::Memory),
    }
}
