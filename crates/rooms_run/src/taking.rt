//! The list of rooms and what each room is given, taken from a shelf.
ghost use Rattle.std.specs.Prelude.{◌≡◌, ◌<◌, ◌≤◌, ℕ, List, None, Some, Ok, Err, length, IfOk, IfErr, OnOk, IfSome, IsSome, IsErrOf};
ghost use Rattle.std.specs.List.{AllZip};
ghost use Rattle.edge_io.specs.Told.{Counts};
ghost use Rattle.session_edge.specs.Given.{IfContent, IfRoster as IfFile};
ghost use Rattle.program_edge.specs.Words.{texts_of};
ghost use Rattle.edge_io.specs.File.{missing};
ghost use Rattle.room_pool.specs.Listed.{Apart, room_list};
ghost use Rattle.rooms_run.specs.CommandLine.{list_name};
ghost use Rattle.rooms_run.specs.Ends.{given_to};
ghost use Rattle.rooms_run.specs.Starting.{start_gives, TakenUpTo, IfRoom, IsBadAt, IsLongList};
ghost use Rattle.rooms_run.specs.Causes.{IsTakeEnd, IsTextEnd, IsListEnd, OnListFault, EndsUnlessMemory, read_failed};

use crate::start::{Start, start_of};
use crate::status::RoomsStatus;
use edge_io::{Octets, Shelf, TakeFault, Words};
use program_edge::{WordsFault, decimal, lend, operand};
use room_pool::{MAX_LIST_LEN, RoomList, RoomNames, read_list};
use session_edge::MAX_ROSTER_LEN;
use std::alloc::Global;

/// Octets of the largest capture of a room.
const MAX_DUMP_LEN: usize = 67_108_864;

/// The most workers of a pool.
const MOST_WORKERS: u32 = 16;

/// Takes the content of a name; `None` where it has more than `at_most` octets.
fn take_up_to<F: Shelf>(
    alloc: Global,
    name: &str,
    at_most: usize,
    shelf: &mut F,
) -> Result<Option<Octets>, RoomsStatus>
    ensures taken { IfOk result (λ taken. IfContent (F.file shelf.old name.now) (λ held. TakenUpTo at_most held taken)) }
    ensures short { IfOk result (λ taken. IfSome taken (λ octets. length octets ≤ at_most)) }
    ensures same { (other : List ℕ) → F.file shelf.new other ≡ F.file shelf.old other }
    ensures ends { IfErr result IsTakeEnd }
    ensures counts { Counts (F.faults shelf.old) (read_failed result) (F.faults shelf.new) }
{
    match shelf.take(alloc, name, at_most) {
        Ok(octets) => Ok(Some(octets)),
        Err(TakeFault::TooLong) => Ok(None),
        Err(TakeFault::Failed) => Err(RoomsStatus::ReadFault),
        Err(TakeFault::Memory) => Err(RoomsStatus::Memory),
    }
}

/// Takes the roster and the capture of a room.
fn take_room<F: Shelf>(
    alloc: Global,
    names: &RoomNames,
    shelf: &mut F,
) -> Result<Start, RoomsStatus>
    ensures gives { IfOk result (λ start. IfRoom (F.file shelf.old) names.now (λ text bytes. start_gives start ≡ given_to text bytes)) }
    ensures same { (other : List ℕ) → F.file shelf.new other ≡ F.file shelf.old other }
    ensures ends { IfErr result IsTakeEnd }
    ensures counts { Counts (F.faults shelf.old) (read_failed result) (F.faults shelf.new) }
{
    let text = take_up_to(alloc, names.roster(), MAX_ROSTER_LEN, shelf)?;
    let dump = take_up_to(alloc, names.dump(), MAX_DUMP_LEN, shelf)?;
    Ok(start_of(alloc, text, dump)?)
}

/// Takes the rosters and the captures of all rooms.
pub(crate) fn take_rooms<F: Shelf>(
    alloc: Global,
    list: &RoomList,
    shelf: &mut F,
) -> Result<Vec<Start>, RoomsStatus>
    ensures gives { IfOk result (λ starts. AllZip (λ n start. IfRoom (F.file shelf.old) n (λ text bytes. start_gives start ≡ given_to text bytes))
        list.now starts.items) }
    ensures ends { IfErr result IsTakeEnd }
    ensures counts { Counts (F.faults shelf.old) (read_failed result) (F.faults shelf.new) }
{
    let mut starts = Vec::new(alloc);
    for i in 0..list.len() {
        let start = take_room(alloc, list.room(i), shelf)?;
        let Ok(()) = starts.push(start) else {
            return Err(RoomsStatus::Memory);
        };
    }
    Ok(starts)
}

/// How many workers the words ask for, and the list's name.
///
/// # Errors
///
/// `Usage` where the words aren't `N LIST`, `Memory` where there was none to parse them.
fn form<'a>(alloc: Global, words: &'a [&'a str]) -> Result<(u32, &'a str), WordsFault>
    ensures ok { IfOk result (λ r. (list_name (texts_of words.entry.now) ≡ Some r.1.now) × (0 < r.0) × (r.0 ≤ 16)) }
    ensures usage { IsErrOf result WordsFault.Usage → list_name (texts_of words.entry.now) ≡ None }
{
    let Some((count, _)) = words.split_first() else {
        return Err(WordsFault::Usage);
    };
    let Some(workers) = decimal(count, MOST_WORKERS) else {
        return Err(WordsFault::Usage);
    };
    let name = operand(alloc, words, count)?;
    Ok((workers, name))
}

/// Takes the text of the list that the words name. Answers how many workers they ask for, too.
fn take_text<F: Shelf>(
    alloc: Global,
    words: &Words,
    shelf: &mut F,
) -> Result<(u32, Octets), RoomsStatus>
    ensures some { OnOk result (IsSome (list_name words.now)) }
    ensures few { IfOk result (λ r. (0 < r.0) × (r.0 ≤ 16)) }
    ensures whole { IfOk result (λ r. IfFile (list_name words.now) (F.file shelf.old) (λ text. r.1 ≡ text)) }
    ensures short { IfOk result (λ r. length r.1 ≤ 65536) }
    ensures ends { IfErr result IsTextEnd }
    ensures usage { IsErrOf result RoomsStatus.Usage → list_name words.now ≡ None }
    ensures usage_only { list_name words.now ≡ None → EndsUnlessMemory result RoomsStatus.Usage }
    ensures unused { list_name words.now ≡ None → shelf.new ≡ shelf.old }
    ensures no_list { IfSome (list_name words.now) (λ name. F.file shelf.old name ≡ missing → EndsUnlessMemory result RoomsStatus.ReadFault) }
    ensures long { IsErrOf result RoomsStatus.ListLong → IsLongList (list_name words.now) (F.file shelf.old) }
    ensures same { (other : List ℕ) → F.file shelf.new other ≡ F.file shelf.old other }
    ensures counts { Counts (F.faults shelf.old) (read_failed result) (F.faults shelf.new) }
{
    let words = lend(alloc, words)?;
    let (count, name) = form(alloc, words.as_slice())?;
    match shelf.take(alloc, name, MAX_LIST_LEN) {
        Ok(text) => Ok((count, text)),
        Err(TakeFault::TooLong) => Err(RoomsStatus::ListLong),
        Err(TakeFault::Failed) => Err(RoomsStatus::ReadFault),
        Err(TakeFault::Memory) => Err(RoomsStatus::Memory),
    }
}

/// Takes the list that the words name, and reads it. Answers how many workers they ask for, too.
pub(crate) fn take_list<F: Shelf>(
    alloc: Global,
    words: &Words,
    shelf: &mut F,
) -> Result<(u32, RoomList), RoomsStatus>
    ensures some { OnOk result (IsSome (list_name words.now)) }
    ensures few { IfOk result (λ r. (0 < r.0) × (r.0 ≤ 16)) }
    ensures listed { IfOk result (λ r. IfFile (list_name words.now) (F.file shelf.old) (λ text. (length text ≤ 65536) × (room_list text ≡ Ok r.1))) }
    ensures kept { IfOk result (λ r. Apart r.1 × (0 < length r.1)) }
    ensures ends { IfErr result IsListEnd }
    ensures usage { IsErrOf result RoomsStatus.Usage → list_name words.now ≡ None }
    ensures usage_only { list_name words.now ≡ None → EndsUnlessMemory result RoomsStatus.Usage }
    ensures unused { list_name words.now ≡ None → shelf.new ≡ shelf.old }
    ensures no_list { IfSome (list_name words.now) (λ name. F.file shelf.old name ≡ missing → EndsUnlessMemory result RoomsStatus.ReadFault) }
    ensures long { IsErrOf result RoomsStatus.ListLong → IsLongList (list_name words.now) (F.file shelf.old) }
    ensures fault { IfErr result (λ status. OnListFault status (λ line. IsBadAt (list_name words.now) (F.file shelf.old) line)) }
    ensures same { (other : List ℕ) → F.file shelf.new other ≡ F.file shelf.old other }
    ensures counts { Counts (F.faults shelf.old) (read_failed result) (F.faults shelf.new) }
{
    let (count, text) = take_text(alloc, words, shelf)?;
    let list = read_list(alloc, text.as_slice())?;
    Ok((count, list))
}
