//! The call that runs the sessions of many rooms.
ghost use Rattle.std.specs.Prelude.{◌≡◌, ◌≢◌, ◌<◌, ◌≤◌, ◌⊎◌, ℕ, List, None, Ok, length, map, All, IfOk, IfErr, IfSome, IsSome, OnOk, IsErrOf};
ghost use Rattle.std.specs.List.{AllZip};
ghost use Rattle.edge_io.specs.File.{missing};
ghost use Rattle.edge_io.specs.Told.{Rose, Grows, GrowsByFront};
ghost use Rattle.program_edge.specs.Report.{Tells, TellsAfter};
ghost use Rattle.session_edge.specs.Given.{IfRoster as IfFile};
ghost use Rattle.room_pool.specs.Listed.{Apart, room_list};
ghost use Rattle.rooms_run.specs.CommandLine.{list_name};
ghost use Rattle.rooms_run.specs.Ends.{given_to, text_of};
ghost use Rattle.rooms_run.specs.Starting.{IfRoom, IfListed, IsGoodList, IsBadAt, IsLongList};
ghost use Rattle.rooms_run.specs.Causes.{IsListEnd, IsOutputEnd, IsUnlessMemory, EndsUnlessMemory, OnListFault};
ghost use Rattle.rooms_run.specs.Outcomes.{CameFor};
ghost use Rattle.rooms_run.specs.Reported.{AreEnds, Reported};
ghost use Rattle.rooms_run.specs.Texts.{line_of, rooms_text};

use crate::closing::Outcome;
use crate::putting::put_all;
use crate::running::run_all;
use crate::status::RoomsStatus;
use crate::taking::{take_list, take_rooms};
use crate::telling::{status_line, tell_all};
use edge_io::{Shelf, Sink, Words};
use enc_worker::Gate;
use program_edge::tell_once;
use room_pool::{Outs, RoomList};
use std::alloc::Global;
use std::sync::Wait;
use std::thread::Threads;

/// Runs the sessions of the rooms of a list, all at once, over one pool of workers: `N LIST`. It waits: nothing is said of when it
/// returns.
///
/// N is how many workers there are: 1 to 16, in decimal digits without a leading zero. `words` are those of the command line after the
/// program's name. The list, the rosters and the captures are taken from `shelf`, all of them before anything is written. The answer of
/// each room is put to its output, and how each ended is written to `err`, as a line for each. `gate` is called by whichever thread
/// joins a listener, claims a run or has published one.
///
/// The end of each room, and what its output then holds more, are a function of its own roster and capture, whatever the other rooms
/// hold and however many workers there are.
pub fn rooms<R: Threads + Wait + Sync, F: Shelf, O: Outs, E: Sink, G: Gate>(
    rt: &R,
    alloc: Global,
    words: &Words,
    shelf: &mut F,
    outs: &mut O,
    err: &mut E,
    gate: &G,
) -> RoomsStatus
    // The words decide first, and without them nothing is used.
    ensures usage { result ≡ RoomsStatus.Usage → list_name words.now ≡ None }
    ensures usage_only { list_name words.now ≡ None → IsUnlessMemory result RoomsStatus.Usage }
    ensures unused { list_name words.now ≡ None → (shelf.new ≡ shelf.old) × (outs.new ≡ outs.old) }

    // Then the list: one that isn't there, one that is too long, and the first bad line.
    ensures no_list { IfSome (list_name words.now) (λ name. F.file shelf.old name ≡ missing →
        IsUnlessMemory result RoomsStatus.ReadFault × (outs.new ≡ outs.old)) }
    ensures long { result ≡ RoomsStatus.ListLong → IsLongList (list_name words.now) (F.file shelf.old) }
    ensures long_only { IfFile (list_name words.now) (F.file shelf.old) (λ text. 65536 < length text →
        IsUnlessMemory result RoomsStatus.ListLong ⊎ Rose (F.faults shelf.old) (F.faults shelf.new)) }
    ensures fault { OnListFault result (λ line. IsBadAt (list_name words.now) (F.file shelf.old) line) }
    ensures fault_only { IfFile (list_name words.now) (F.file shelf.old) (λ text. length text ≤ 65536 → IfErr (room_list text) (λ line.
        IsUnlessMemory result (RoomsStatus.ListFault line) ⊎ Rose (F.faults shelf.old) (F.faults shelf.new))) }
    ensures good { result ≡ RoomsStatus.Done → IsGoodList (list_name words.now) (F.file shelf.old) }

    // Then the rooms, each as if it were alone: what its output holds more, and how it ended. All are run, unless a call fails or there is
    // no memory.
    ensures answers { result ≡ RoomsStatus.Done → IfListed (list_name words.now) (F.file shelf.old) (λ list. All (λ n.
        IfRoom (F.file shelf.old) n (λ text bytes. Grows (O.held outs.old n.out) (O.held outs.new n.out) (text_of (given_to text bytes)))) list) }
    ensures told { result ≡ RoomsStatus.Done → (ends : List _) × AreEnds (list_name words.now) (F.file shelf.old) ends
        × Grows (E.held err.old) (E.held err.new) (rooms_text 1 ends) }
    ensures fronts { IsOutputEnd result → IfListed (list_name words.now) (F.file shelf.old) (λ list. All (λ n.
        IfRoom (F.file shelf.old) n (λ text bytes. GrowsByFront (O.held outs.old n.out) (O.held outs.new n.out) (text_of (given_to text bytes)))) list) }
    ensures complete { IfListed (list_name words.now) (F.file shelf.old) (λ list. IsUnlessMemory result RoomsStatus.Done
        ⊎ Rose (F.faults shelf.old) (F.faults shelf.new) ⊎ Rose (O.faults outs.old) (O.faults outs.new)
        ⊎ Rose (E.faults err.old) (E.faults err.new)) }

    // What other names hold, and what stands on the outputs at every other end.
    ensures others { IfListed (list_name words.now) (F.file shelf.old) (λ list. (name : List ℕ) → All (λ n. n.out ≢ name) list →
        O.held outs.new name ≡ O.held outs.old name) }
    ensures untouched { (IsOutputEnd result → ⊥) → outs.new ≡ outs.old }

    // A failed call has its count, and what stands on the error stream.
    ensures read { result ≡ RoomsStatus.ReadFault → Rose (F.faults shelf.old) (F.faults shelf.new) }
    ensures not_taken { F.faults shelf.old < F.faults shelf.new → (result ≡ RoomsStatus.ReadFault) × (outs.new ≡ outs.old) }
    ensures write { result ≡ RoomsStatus.WriteFault →
        Rose (O.faults outs.old) (O.faults outs.new) ⊎ Rose (E.faults err.old) (E.faults err.new) }
    ensures reported { Reported (λ ends. AreEnds (list_name words.now) (F.file shelf.old) ends) result (E.held err.old) (E.held err.new)
        (Rose (E.faults err.old) (E.faults err.new) ⊎ Rose (E.lacks err.old) (E.lacks err.new)) }
{
    match work(rt, alloc, words, shelf, outs, gate) {
        Ok(outcomes) => finish(alloc, outcomes.as_slice(), err),
        Err(status) => report(alloc, err, status),
    }
}

/// The steps of the rooms, up to their lines.
fn work<R: Threads + Wait + Sync, F: Shelf, O: Outs, G: Gate>(
    rt: &R,
    alloc: Global,
    words: &Words,
    shelf: &mut F,
    outs: &mut O,
    gate: &G,
) -> Result<Vec<Outcome>, RoomsStatus>
    ensures not_done { IfErr result (λ status. status ≢ RoomsStatus.Done) }
    ensures usage { IsErrOf result RoomsStatus.Usage → list_name words.now ≡ None }
    ensures usage_only { list_name words.now ≡ None → EndsUnlessMemory result RoomsStatus.Usage }
    ensures unused { list_name words.now ≡ None → (shelf.new ≡ shelf.old) × (outs.new ≡ outs.old) }
    ensures no_list { IfSome (list_name words.now) (λ name. F.file shelf.old name ≡ missing →
        EndsUnlessMemory result RoomsStatus.ReadFault × (outs.new ≡ outs.old)) }
    ensures long { IsErrOf result RoomsStatus.ListLong → IsLongList (list_name words.now) (F.file shelf.old) }
    ensures fault { IfErr result (λ status. OnListFault status (λ line. IsBadAt (list_name words.now) (F.file shelf.old) line)) }
    ensures good { OnOk result (IsGoodList (list_name words.now) (F.file shelf.old)) }
    ensures good_so_far { IsErrOf result RoomsStatus.WriteFault → IsGoodList (list_name words.now) (F.file shelf.old) }
    ensures ends { IfOk result (λ outcomes. AreEnds (list_name words.now) (F.file shelf.old) (map (λ o. o.end) outcomes.items)) }
    ensures answers { OnOk result (IfListed (list_name words.now) (F.file shelf.old) (λ list. All (λ n.
        IfRoom (F.file shelf.old) n (λ text bytes. Grows (O.held outs.old n.out) (O.held outs.new n.out) (text_of (given_to text bytes)))) list)) }
    ensures fronts { IfErr result (λ status. IsOutputEnd status → IfListed (list_name words.now) (F.file shelf.old) (λ list. All (λ n.
        IfRoom (F.file shelf.old) n (λ text bytes. GrowsByFront (O.held outs.old n.out) (O.held outs.new n.out) (text_of (given_to text bytes)))) list)) }
    ensures others { IfListed (list_name words.now) (F.file shelf.old) (λ list. (name : List ℕ) → All (λ n. n.out ≢ name) list →
        O.held outs.new name ≡ O.held outs.old name) }
    ensures untouched { IfErr result (λ status. (IsOutputEnd status → ⊥) → outs.new ≡ outs.old) }
    ensures read { IsErrOf result RoomsStatus.ReadFault → Rose (F.faults shelf.old) (F.faults shelf.new) }
    ensures not_taken { F.faults shelf.old < F.faults shelf.new → IsErrOf result RoomsStatus.ReadFault × (outs.new ≡ outs.old) }
    ensures write { IsErrOf result RoomsStatus.WriteFault → Rose (O.faults outs.old) (O.faults outs.new) }
{
    let (list, outcomes) = run_list(rt, alloc, words, shelf, gate)?;
    put_all(alloc, &list, outcomes.as_slice(), outs)?;
    Ok(outcomes)
}

/// Takes the list and what its rooms are given, and runs them all.
fn run_list<R: Threads + Wait + Sync, F: Shelf, G: Gate>(
    rt: &R,
    alloc: Global,
    words: &Words,
    shelf: &mut F,
    gate: &G,
) -> Result<(RoomList, Vec<Outcome>), RoomsStatus>
    ensures some { OnOk result (IsSome (list_name words.now)) }
    ensures listed { IfOk result (λ r. IfFile (list_name words.now) (F.file shelf.old) (λ text. (length text ≤ 65536) × (room_list text ≡ Ok r.0))) }
    ensures apart { IfOk result (λ r. Apart r.0) }
    ensures came { IfOk result (λ r. AllZip (CameFor (F.file shelf.old)) r.0 r.1.items) }
    ensures ends { IfErr result IsListEnd }
    ensures usage { IsErrOf result RoomsStatus.Usage → list_name words.now ≡ None }
    ensures usage_only { list_name words.now ≡ None → EndsUnlessMemory result RoomsStatus.Usage }
    ensures unused { list_name words.now ≡ None → shelf.new ≡ shelf.old }
    ensures no_list { IfSome (list_name words.now) (λ name. F.file shelf.old name ≡ missing → EndsUnlessMemory result RoomsStatus.ReadFault) }
    ensures long { IsErrOf result RoomsStatus.ListLong → IsLongList (list_name words.now) (F.file shelf.old) }
    ensures fault { IfErr result (λ status. OnListFault status (λ line. IsBadAt (list_name words.now) (F.file shelf.old) line)) }
    ensures read { IsErrOf result RoomsStatus.ReadFault → Rose (F.faults shelf.old) (F.faults shelf.new) }
    ensures read_only { F.faults shelf.old < F.faults shelf.new → IsErrOf result RoomsStatus.ReadFault }
{
    let (workers, list) = take_list(alloc, words, shelf)?;
    let starts = take_rooms(alloc, &list, shelf)?;
    let outcomes = run_all(rt, alloc, workers, starts, gate)?;
    Ok((list, outcomes))
}

/// Writes the line of each room, and where that fails the line of the fault.
fn finish<E: Sink>(alloc: Global, outcomes: &[Outcome], err: &mut E) -> RoomsStatus
    ensures done { result ≡ RoomsStatus.Done → Grows (E.held err.old) (E.held err.new) (rooms_text 1 (map (λ o. o.end) outcomes.now)) }
    ensures ends { IsOutputEnd result }
    ensures write { result ≡ RoomsStatus.WriteFault → Rose (E.faults err.old) (E.faults err.new) }
    ensures fault { result ≢ RoomsStatus.Done →
        TellsAfter (E.held err.old) (E.held err.new) (rooms_text 1 (map (λ o. o.end) outcomes.now)) (line_of result)
        (Rose (E.faults err.old) (E.faults err.new) ⊎ Rose (E.lacks err.old) (E.lacks err.new)) }
    ensures rose { result ≢ RoomsStatus.Done →
        Rose (E.faults err.old) (E.faults err.new) ⊎ Rose (E.lacks err.old) (E.lacks err.new) }
{
    match tell_all(alloc, outcomes, err) {
        Ok(()) => RoomsStatus::Done,
        Err(fault) => report(alloc, err, RoomsStatus::from(fault)),
    }
}

/// Writes the line of a status other than Done to `err`, tried once. Its failure changes no status.
pub fn report<E: Sink>(alloc: Global, err: &mut E, status: RoomsStatus) -> RoomsStatus
    ensures same { result ≡ status }
    ensures line { Tells (E.held err.old) (E.held err.new) (line_of status)
        (Rose (E.faults err.old) (E.faults err.new) ⊎ Rose (E.lacks err.old) (E.lacks err.new)) }
    ensures never_falls { E.faults err.old ≤ E.faults err.new }
    ensures lacks_never_fall { E.lacks err.old ≤ E.lacks err.new }
{
    tell_once(alloc, err, &status_line(status));
    status
}
