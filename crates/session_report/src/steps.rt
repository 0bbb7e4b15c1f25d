//! The steps of a report, in the order of work: each goes on, or ends it with a status.
ghost use Rattle.std.specs.Prelude.{◌≡◌, ◌⊎◌, ◌<◌, ◌≤◌, ℕ, List, Err, Ok, length, IsSome, IfOk, IfErr, OnOk, IfSome, IsErrOf};
ghost use Rattle.edge_io.specs.Told.{Rose};
ghost use Rattle.edge_io.specs.File.{missing};
ghost use Rattle.roster_text.specs.Roster.{roster};
ghost use Rattle.session_edge.specs.Given.{IfRoster};
ghost use Rattle.session_spec.specs.Talkers.{Events};
ghost use Rattle.session_spec.specs.Events.{feed_of};
ghost use Rattle.roster_desk.specs.Serving.{Begins};
ghost use Rattle.desk_run.specs.Whole.{Leaves};
ghost use Rattle.session_report.specs.CommandLine.{form_of, roster_of};
ghost use Rattle.session_report.specs.Given.{given_by};
ghost use Rattle.session_report.specs.Ends.{Finds};
ghost use Rattle.session_report.specs.Watching.{Counts};
ghost use Rattle.session_report.specs.Noting.{Notes};
ghost use Rattle.session_account.specs.Speaking.{muted};
ghost use Rattle.session_report.specs.Ending.{SumsUp};
ghost use Rattle.session_report.specs.Causes.{EndsUnlessMemory, IsTakeEnd, IsRosterEnd, IsRunEnd, OnRosterFault};

use crate::audience::Noting;
use crate::nowhere::Nowhere;
use crate::status::ReportStatus;
use crate::watching::Watching;
use crate::words::roster_name;
use desk_run::{Stop, run_session, sum_up};
use edge_io::{Octets, Shelf, Source, Words};
use roster_text::Roster;
use session_account::{Report, Voices};
use session_edge::MAX_ROSTER_LEN;
use std::alloc::Global;

/// Takes the roster that the words name.
pub(crate) fn take_roster<F: Shelf>(
    alloc: Global,
    words: &Words,
    shelf: &mut F,
) -> Result<Octets, ReportStatus>
    requires named { IsSome (form_of words.now) }
    ensures whole { IfOk result (λ octets.
        IfRoster (roster_of words.now) (F.file shelf.old) (λ text. octets ≡ text)) }
    ensures short { IfOk result (λ octets. length octets ≤ 1048576) }
    ensures ends { IfErr result IsTakeEnd }
    ensures absent { IfSome (roster_of words.now) (λ name. F.file shelf.old name ≡ missing →
        IsErrOf result ReportStatus.ReadFault) }
    ensures long { IsErrOf result ReportStatus.RosterLong →
        IfRoster (roster_of words.now) (F.file shelf.old) (λ text. 1048576 < length text) }
    ensures long_only { IfRoster (roster_of words.now) (F.file shelf.old) (λ text. 1048576 < length text →
        EndsUnlessMemory result ReportStatus.RosterLong ⊎ Rose (F.faults shelf.old) (F.faults shelf.new)) }
    ensures read { IsErrOf result ReportStatus.ReadFault → Rose (F.faults shelf.old) (F.faults shelf.new) }
    ensures read_only { F.faults shelf.old < F.faults shelf.new → IsErrOf result ReportStatus.ReadFault }
{
    let name = roster_name(words);
    Ok(shelf.take(alloc, name, MAX_ROSTER_LEN)?)
}

/// Reads the roster.
pub(crate) fn read_roster(alloc: Global, text: &Octets) -> Result<Roster, ReportStatus>
    requires short { length text.now ≤ 1048576 }
    ensures ok { IfOk result (λ told. roster text.now ≡ Ok told) }
    ensures ends { IfErr result IsRosterEnd }
    ensures fault { IfErr result (λ status. OnRosterFault status (λ line kind. roster text.now ≡ Err (record { line = line; kind = kind }))) }
{
    Ok(roster_text::read(alloc, text.as_slice())?)
}

/// Runs the session of a roster over a capture, and says what there is to say of it.
pub(crate) fn run<S: Source>(
    alloc: Global,
    roster: Roster,
    dump: &mut S,
) -> Result<Report, ReportStatus>
    ensures told { IfSome (S.rest dump.old) (λ bytes. Finds (given_by roster bytes) (S.rest dump.new) result) }
    ensures ends { IfErr result IsRunEnd }
    ensures read { IsErrOf result ReportStatus.ReadFault → Rose (S.faults dump.old) (S.faults dump.new) }
{
    let ticks = roster.ticks();
    let voices = Voices::new(alloc, &roster)?;
    let mut noting = Noting::new(alloc, voices);
    let mut desk = Watching::new(alloc, roster);
    let mut nowhere = Nowhere;
    match run_session(alloc, ticks, &mut desk, &mut noting, dump, &mut nowhere) {
        Ok(packets) => close(alloc, ticks, packets, desk, noting),
        Err(Stop::Dump { at, kind }) => Err(ReportStatus::DumpFault { at, kind }),
        Err(Stop::Read) => Err(ReportStatus::ReadFault),
        Err(Stop::Write) => unreachable!(),
        Err(Stop::Memory) => Err(ReportStatus::Memory),
    }
}

/// Sums a session up whose ticks were all run.
fn close(
    alloc: Global,
    ticks: u32,
    packets: u64,
    desk: Watching,
    noting: Noting,
) -> Result<Report, ReportStatus>
    requires noted { (h : Events) × (Begins desk.desk h × Counts desk h) × Notes noting (feed_of h) ticks }
    requires short { ticks ≤ 4320000 }
    ensures ends { IfErr result (λ status. status ≡ ReportStatus.Memory) }
    ensures sums_up { IfOk result (λ account. (h : Events) → (Begins desk.desk h × Counts desk h) → Notes noting (feed_of h) ticks →
        SumsUp ticks packets (muted noting.voices) h account) }
{
    if desk.lost {
        return Err(ReportStatus::Memory);
    }
    let mut nowhere = Nowhere;
    let Ok(summary) = sum_up(alloc, ticks, packets, &desk, &noting.book, &mut nowhere) else {
        return Err(ReportStatus::Memory);
    };
    let listeners = noting.visits.listeners(alloc)?;
    Ok(Report::of(summary, desk.streams, noting.voices, listeners, noting.runs))
}
