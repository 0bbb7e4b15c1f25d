//! What became of the rooms, after all were run.
ghost use Rattle.std.specs.Prelude.{◌≡◌, ◌≢◌, ◌≤◌, ◌<◌, ℕ, List, Err, All, reverse, Result, IfOk, OnErr};
ghost use Rattle.std.specs.List.{AllZip};
ghost use Rattle.desk_run.specs.Whole.{Given};
ghost use Rattle.desk_run.specs.BookSide.{IsEven};
ghost use Rattle.rooms_run.specs.declared.ends.RoomEnd.{RoomEnd};
ghost use Rattle.rooms_run.specs.Seated.{IsRun, RunFor};
ghost use Rattle.rooms_run.specs.Summing.{Sums};
ghost use Rattle.rooms_run.specs.Outcomes.{Comes};

use crate::ends::RoomEnd;
use crate::room::{Room, Seat};
use crate::seating::{Desked, Placed};
use book_lock::BookLock;
use desk_run::{Stop, sum_up};
use desk_shared::Waiting;
use edge_io::{CalmSink, Memory, PutFault};
use enc_worker::Gate;
use roster_desk::RosterDesk;
use session_spec::Summary;
use std::alloc::Global;
use std::sync::Wait;
use tick_core::Book;

/// What became of a room: how it ended, and what its output is to hold more.
#[derive(Drop)]
pub(crate) struct Outcome {
    pub(crate) end: RoomEnd,
    pub(crate) out: CalmSink,
}

/// What summing a session up came to, and the answer with what was left.
#[derive(Drop)]
pub(crate) struct Summed {
    end: Result<Summary, PutFault>,
    out: CalmSink,
}

/// Writes what is left behind an answer, and sums its session up.
fn sum_book(
    alloc: Global,
    ticks: u32,
    packets: u64,
    desk: &RosterDesk,
    mut out: CalmSink,
    book: &Book,
) -> Summed
    requires even { IsEven book.now }
    requires short { ticks ≤ 4320000 }
    ensures sums { Sums ticks packets desk.now out.octets book.now result }
{
    let end = sum_up(alloc, ticks, packets, desk, book, &mut out);
    Summed { end, out }
}

/// The same in a turn of the desk's pass, after its session was run well.
fn sum_room<'a, W: Wait, G: Gate>(
    rt: &W,
    alloc: Global,
    packets: u64,
    room: Room<&'a BookLock<Book>, RosterDesk, Desked<'a, W, G>>,
) -> Result<Outcome, Memory>
    requires run { (given : Given) × IsRun (λ c. c.desk) (λ l. l.now) given room }
    requires well { room.end ≡ Result.Ok packets }
    ensures comes { IfOk result (λ o. (given : Given) → IsRun (λ c. c.desk) (λ l. l.now) given room.entry → Comes (Result.Ok given) o) }
{
    let Room {
        lock,
        ticks,
        desk,
        conference,
        dump: _dump,
        out,
        end: _end,
    } = room;
    let Waiting {
        rt: _rt,
        desk: seat,
        help: _help,
    } = conference;
    let mut pass = seat.into_pass();
    let summed = lock.turn(
        rt,
        &mut pass,
        move |book: &mut Book| -> Summed
            requires { IsEven book.old × (ticks ≤ 4320000) }
            ensures same { book.new ≡ book.old }
            ensures sums { Sums ticks packets desk out.octets book.old result }
        { sum_book(alloc, ticks, packets, &desk, out, book) },
    );
    match summed.end {
        Ok(summary) => Ok(Outcome {
            end: RoomEnd::Done(summary),
            out: summed.out,
        }),
        Err(PutFault::Memory) => Err(Memory),
        Err(PutFault::Failed) => unreachable!(),
    }
}

/// What became of a room, at its place.
fn close_seat<'a, W: Wait, G: Gate>(
    rt: &W,
    alloc: Global,
    seat: Placed<'a, W, G>,
) -> Result<Outcome, Memory>
    requires run { (gives : Result Given RoomEnd) × RunFor (λ c. c.desk) (λ l. l.now) gives seat }
    ensures comes { IfOk result (λ o. (gives : Result Given RoomEnd) → RunFor (λ c. c.desk) (λ l. l.now) gives seat.entry → Comes gives o) }
{
    match seat {
        Seat::Ends(end) => Ok(Outcome {
            end,
            out: CalmSink::new(alloc),
        }),
        Seat::Runs(room) => close_room(rt, alloc, room),
    }
}

/// What became of a room that was run.
fn close_room<'a, W: Wait, G: Gate>(
    rt: &W,
    alloc: Global,
    room: Room<&'a BookLock<Book>, RosterDesk, Desked<'a, W, G>>,
) -> Result<Outcome, Memory>
    requires run { (given : Given) × IsRun (λ c. c.desk) (λ l. l.now) given room }
    ensures comes { IfOk result (λ o. (given : Given) → IsRun (λ c. c.desk) (λ l. l.now) given room.entry → Comes (Result.Ok given) o) }
{
    match room.end {
        Ok(packets) => sum_room(rt, alloc, packets, room),
        Err(Stop::Dump { at, kind }) => Ok(Outcome {
            end: RoomEnd::Dump { at, kind },
            out: room.out,
        }),
        Err(Stop::Memory) => Err(Memory),
        Err(Stop::Read | Stop::Write) => unreachable!(),
    }
}

/// What became of all rooms, from the last to the first.
pub(crate) fn close_all<'a, W: Wait, G: Gate>(
    rt: &W,
    alloc: Global,
    mut seats: Vec<Placed<'a, W, G>>,
) -> Result<Vec<Outcome>, Memory>
    requires run { All (λ s. (gives : Result Given RoomEnd) × RunFor (λ c. c.desk) (λ l. l.now) gives s) seats.items }
    ensures comes { IfOk result (λ outcomes. AllZip (λ s o. (gives : Result Given RoomEnd) → RunFor (λ c. c.desk) (λ l. l.now) gives s → Comes gives o)
        (reverse seats.entry.items) outcomes.items) }
{
    let mut outcomes = Vec::new(alloc);
    'rooms: while let Some(seat) = seats.pop() {
        outcomes.push(close_seat(rt, alloc, seat)?)?;
    }
    Ok(outcomes)
}
