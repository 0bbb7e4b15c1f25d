//! The steps of an audit, in the order of work: each goes on, or ends it with a status.
ghost use Rattle.std.specs.Prelude.{◌≡◌, ◌⊎◌, ◌<◌, ◌≤◌, ℕ, List, None, Some, Ok, Err, length, is_some, IsSome, IfOk, IfErr, OnOk, IfSome, IsErrOf};
ghost use Rattle.edge_io.specs.Told.{Rose};
ghost use Rattle.edge_io.specs.File.{content, missing};
ghost use Rattle.roster_text.specs.Roster.{roster, Told};
ghost use Rattle.program_edge.specs.Words.{is_plain};
ghost use Rattle.audit_check.specs.CommandLine.{names_of, roster_of, out_of};
ghost use Rattle.session_edge.specs.Given.{IfRoster as IfFile};
ghost use Rattle.audit_check.specs.Given.{given_by};
ghost use Rattle.audit_check.specs.Ends.{Finds};
ghost use Rattle.audit_check.specs.Causes.{EndsUnlessMemory, IsTakeEnd, IsOutEnd, IsRosterEnd, IsRunEnd, OnRosterFault};

use crate::checking::Checking;
use crate::compare::Difference;
use crate::nowhere::Nowhere;
use crate::status::AuditStatus;
use desk_run::{Stop, run_session};
use edge_io::{Octets, Shelf, Source, TakeFault, Words};
use roster_desk::RosterDesk;
use roster_text::Roster;
use session_edge::MAX_ROSTER_LEN;
use std::alloc::Global;

/// The most octets that are audited.
const MAX_OUT_LEN: usize = 1_073_741_824;

/// Whether the words are the two words ROSTER and OUT.
pub(crate) fn are_names(words: &Words) -> bool
    ensures { result ≡ is_some (names_of words.now) }
{
    words.len() == 2 && is_plain_word(words.word(0)) && is_plain_word(words.word(1))
}

/// A word that isn't empty and doesn't begin with a dash.
fn is_plain_word(word: &str) -> bool
    ensures { result ≡ is_plain word.now }
{
    match word.as_bytes() {
        [] => false,
        [first, ..] => *first != b'-',
    }
}

/// The roster's name.
fn roster_name(words: &Words) -> &str
    requires { IsSome (names_of words.now) }
    ensures { roster_of words.now ≡ Some result.now }
{
    words.word(0)
}

/// The name of the octets that are audited.
fn out_name(words: &Words) -> &str
    requires { IsSome (names_of words.now) }
    ensures { out_of words.now ≡ Some result.now }
{
    words.word(1)
}

/// Takes the roster that the words name.
pub(crate) fn take_roster<F: Shelf>(
    alloc: Global,
    words: &Words,
    shelf: &mut F,
) -> Result<Octets, AuditStatus>
    requires named { IsSome (names_of words.now) }
    ensures whole { IfOk result (λ octets.
        IfFile (roster_of words.now) (F.file shelf.old) (λ text. octets ≡ text)) }
    ensures short { IfOk result (λ octets. length octets ≤ 1048576) }
    ensures ends { IfErr result IsTakeEnd }
    ensures absent { IfSome (roster_of words.now) (λ name. F.file shelf.old name ≡ missing →
        IsErrOf result AuditStatus.ReadFault) }
    ensures long { IsErrOf result AuditStatus.RosterLong →
        IfFile (roster_of words.now) (F.file shelf.old) (λ text. 1048576 < length text) }
    ensures long_only { IfFile (roster_of words.now) (F.file shelf.old) (λ text. 1048576 < length text →
        EndsUnlessMemory result AuditStatus.RosterLong ⊎ Rose (F.faults shelf.old) (F.faults shelf.new)) }
    ensures same { (other : List ℕ) → F.file shelf.new other ≡ F.file shelf.old other }
    ensures read { IsErrOf result AuditStatus.ReadFault → Rose (F.faults shelf.old) (F.faults shelf.new) }
    ensures read_only { F.faults shelf.old < F.faults shelf.new → IsErrOf result AuditStatus.ReadFault }
    ensures unfailed { OnOk result (F.faults shelf.new ≡ F.faults shelf.old) }
    ensures calm { IfSome (roster_of words.now) (λ name. (held : List ℕ) →
        F.file shelf.old name ≡ content held → F.calm shelf.old →
        F.faults shelf.new ≡ F.faults shelf.old) }
    ensures stays_calm { F.calm shelf.old → F.calm shelf.new }
{
    let name = roster_name(words);
    match shelf.take(alloc, name, MAX_ROSTER_LEN) {
        Ok(text) => Ok(text),
        Err(TakeFault::Failed) => Err(AuditStatus::ReadFault),
        Err(TakeFault::TooLong) => Err(AuditStatus::RosterLong),
        Err(TakeFault::Memory) => Err(AuditStatus::Memory),
    }
}

/// Takes the octets to be audited that the words name.
pub(crate) fn take_out<F: Shelf>(
    alloc: Global,
    words: &Words,
    shelf: &mut F,
) -> Result<Octets, AuditStatus>
    requires named { IsSome (names_of words.now) }
    ensures whole { IfOk result (λ octets.
        IfFile (out_of words.now) (F.file shelf.old) (λ out. octets ≡ out)) }
    ensures short { IfOk result (λ octets. length octets ≤ 1073741824) }
    ensures ends { IfErr result IsOutEnd }
    ensures absent { IfSome (out_of words.now) (λ name. F.file shelf.old name ≡ missing →
        IsErrOf result AuditStatus.ReadFault) }
    ensures long { IsErrOf result AuditStatus.OutLong →
        IfFile (out_of words.now) (F.file shelf.old) (λ out. 1073741824 < length out) }
    ensures long_only { IfFile (out_of words.now) (F.file shelf.old) (λ out. 1073741824 < length out →
        EndsUnlessMemory result AuditStatus.OutLong ⊎ Rose (F.faults shelf.old) (F.faults shelf.new)) }
    ensures read { IsErrOf result AuditStatus.ReadFault → Rose (F.faults shelf.old) (F.faults shelf.new) }
    ensures read_only { F.faults shelf.old < F.faults shelf.new → IsErrOf result AuditStatus.ReadFault }
    ensures unfailed { OnOk result (F.faults shelf.new ≡ F.faults shelf.old) }
    ensures calm { IfSome (out_of words.now) (λ name. (held : List ℕ) →
        F.file shelf.old name ≡ content held → F.calm shelf.old →
        F.faults shelf.new ≡ F.faults shelf.old) }
{
    let name = out_name(words);
    match shelf.take(alloc, name, MAX_OUT_LEN) {
        Ok(out) => Ok(out),
        Err(TakeFault::Failed) => Err(AuditStatus::ReadFault),
        Err(TakeFault::TooLong) => Err(AuditStatus::OutLong),
        Err(TakeFault::Memory) => Err(AuditStatus::Memory),
    }
}

/// Reads the roster.
pub(crate) fn read_roster(alloc: Global, text: &Octets) -> Result<Roster, AuditStatus>
    requires short { length text.now ≤ 1048576 }
    ensures ok { IfOk result (λ told. roster text.now ≡ Ok told) }
    ensures ends { IfErr result IsRosterEnd }
    ensures fault { IfErr result (λ status. OnRosterFault status (λ line kind. roster text.now ≡ Err (record { line = line; kind = kind }))) }
{
    Ok(roster_text::read(alloc, text.as_slice())?)
}

/// Runs the session of a roster over a capture, and compares its packets with the octets as they are handed out.
pub(crate) fn run<S: Source>(
    alloc: Global,
    roster: Roster,
    out: Octets,
    dump: &mut S,
) -> Result<Option<Difference>, AuditStatus>
    ensures told { IfSome (S.rest dump.old) (λ bytes. Finds (given_by roster bytes) out (S.rest dump.new) result) }
    ensures ends { IfErr result IsRunEnd }
    ensures read { IsErrOf result AuditStatus.ReadFault → Rose (S.faults dump.old) (S.faults dump.new) }
{
    let ticks = roster.ticks();
    let mut desk = RosterDesk::new(alloc, roster);
    let mut checking = Checking::new(alloc, out);
    let mut nowhere = Nowhere;
    match run_session(alloc, ticks, &mut desk, &mut checking, dump, &mut nowhere) {
        Ok(_) => Ok(checking.finish(ticks)),
        Err(Stop::Dump { at, kind }) => Err(AuditStatus::DumpFault { at, kind }),
        Err(Stop::Read) => Err(AuditStatus::ReadFault),
        Err(Stop::Write) => unreachable!(),
        Err(Stop::Memory) => Err(AuditStatus::Memory),
    }
}
