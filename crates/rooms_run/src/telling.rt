//! The lines of the rooms, and the line of a status.
ghost use Rattle.std.specs.Prelude.{◌≡◌, ◌++◌, codes, decimal, map, OnOk, OnErr};
ghost use Rattle.edge_io.specs.Answers.{put_failed, put_lacked};
ghost use Rattle.edge_io.specs.Told.{Counts, Grows, GrowsByFront};
ghost use Rattle.rooms_run.specs.Texts.{end_line, line_of, room_line, rooms_text};

use crate::closing::Outcome;
use crate::ends::RoomEnd;
use crate::status::RoomsStatus;
use edge_io::{PutFault, Sink, write_all};
use program_edge::{Line, add_number, line};
use session_edge::{
    dump_fault_line, memory_line, read_failed_line, roster_fault_line, roster_long_line,
    summary_text, write_failed_line,
};
use std::alloc::Global;

/// The line of a room's end.
fn end_text(end: RoomEnd) -> Line
    ensures { result.bytes ≡ end_line end }
{
    match end {
        RoomEnd::Done(summary) => summary_text(summary),
        RoomEnd::RosterBad { line, kind } => roster_fault_line(line, kind),
        RoomEnd::RosterLong => roster_long_line(),
        RoomEnd::DumpLong => line("dump longer than 67108864 octets\n"),
        RoomEnd::Dump { at, kind } => dump_fault_line(at, kind),
    }
}

/// How a room's line begins: its number, counted from 1.
fn room_text(number: u64) -> Line
    ensures { result.bytes ≡ codes "room " ++ decimal number ++ codes " " }
{
    let mut text = Line::new();
    add_number(&mut text, "room ", number);
    text.push_str(" ");
    text
}

/// Writes the line of a room: its number, and how it ended.
fn tell_room<E: Sink>(alloc: Global, number: u64, end: RoomEnd, err: &mut E) -> Result<(), PutFault>
    ensures whole { OnOk result (Grows (E.held err.old) (E.held err.new) (room_line number end)) }
    ensures front { OnErr result (GrowsByFront (E.held err.old) (E.held err.new) (room_line number end)) }
    ensures counts { Counts (E.faults err.old) (put_failed result) (E.faults err.new) }
    ensures lacks { Counts (E.lacks err.old) (put_lacked result) (E.lacks err.new) }
{
    write_all(alloc, err, room_text(number).as_str().as_bytes())?;
    write_all(alloc, err, end_text(end).as_str().as_bytes())
}

/// Writes a line for each room, in their order.
///
/// # Errors
///
/// What the sink answered. Then a front of the lines was written.
pub(crate) fn tell_all<E: Sink>(
    alloc: Global,
    outcomes: &[Outcome],
    err: &mut E,
) -> Result<(), PutFault>
    ensures whole { OnOk result (Grows (E.held err.old) (E.held err.new) (rooms_text 1 (map (λ o. o.end) outcomes.now))) }
    ensures front { OnErr result (GrowsByFront (E.held err.old) (E.held err.new) (rooms_text 1 (map (λ o. o.end) outcomes.now))) }
    ensures counts { Counts (E.faults err.old) (put_failed result) (E.faults err.new) }
    ensures lacks { Counts (E.lacks err.old) (put_lacked result) (E.lacks err.new) }
{
    for i in 0..outcomes.len() {
        tell_room(alloc, i as u64 + 1, outcomes[i].end, err)?;
    }
    Ok(())
}

/// The line of a status other than Done.
pub(crate) fn status_line(status: RoomsStatus) -> Line
    ensures { result.bytes ≡ line_of status }
{
    match status {
        RoomsStatus::Done => Line::new(),
        RoomsStatus::Usage => line("usage: rooms N LIST\n"),
        RoomsStatus::ListFault { line: number } => {
            let mut text = Line::new();
            add_number(&mut text, "list line ", u64::from(number));
            text.push_str("\n");
            text
        }
        RoomsStatus::ListLong => line("list longer than 65536 octets\n"),
        RoomsStatus::ReadFault => read_failed_line(),
        RoomsStatus::WriteFault => write_failed_line(),
        RoomsStatus::Memory => memory_line(),
    }
}
