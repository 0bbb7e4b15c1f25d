//! A room that is run: its desk and its conference, over a capture and an answer in memory.
ghost use Rattle.std.specs.Prelude.{◌≡◌, ◌<◌, [], Some};
ghost use Rattle.rooms_run.specs.Running.{Starts, HasRun};
ghost use Rattle.rooms_run.specs.Seating.{IsReady, HasRunAt};

use crate::ends::RoomEnd;
use desk_run::{DeskSide, Stop};
use desk_shared::{Closing, run_and_end};
use edge_io::{CalmSink, CalmSource};
use std::alloc::Global;

/// A room with a session: what guards its Book, how many ticks it has, its desk and its conference, what is left of its capture, its
/// answer so far, and how many packets that has, or what ended the session.
#[derive(Drop)]
pub(crate) struct Room<L, D, C> {
    pub(crate) lock: L,
    pub(crate) ticks: u32,
    pub(crate) desk: D,
    pub(crate) conference: C,
    pub(crate) dump: CalmSource,
    pub(crate) out: CalmSink,
    pub(crate) end: Result<u64, Stop>,
}

/// A room's place among those that are run at once.
#[derive(Drop)]
pub(crate) enum Seat<L, D, C> {
    /// It has no session, and ends so.
    Ends(RoomEnd),
    /// It has one.
    Runs(Room<L, D, C>),
}

/// Runs the session of a room and ends its conference, whatever came of it.
fn run_room<L, D: DeskSide, C: Closing>(alloc: Global, room: &mut Room<L, D, C>)
    requires starts { Starts (λ d h. D.begins d h) (λ c h n. C.stands c h n) room.old }
    ensures run { HasRun (λ d. D.plan d) (λ d h. D.begins d h) (λ c h n. C.over c h n) (λ c. C.post c) room.old room.new }
{
    room.end = run_and_end(
        alloc,
        room.ticks,
        &mut room.desk,
        &mut room.conference,
        &mut room.dump,
        &mut room.out,
    );
}

/// What is run by itself, beside others.
pub(crate) trait Runs {
    // It may be run.
    ghost ready: { Self → Type 0 };

    // It was, and went from the one to the other.
    ghost ran: { Self → Self → Type 0 };

    /// Runs it, whatever comes of it.
    fn run(&mut self, alloc: Global)
        requires ready { ready self.old }
        ensures ran { ran self.old self.new };
}

impl<L, D: DeskSide, C: Closing> Runs for Seat<L, D, C> {
    ghost ready = { IsReady (λ d h. D.begins d h) (λ c h n. C.stands c h n) };

    ghost ran = { HasRunAt (λ d. D.plan d) (λ d h. D.begins d h) (λ c h n. C.over c h n) (λ c. C.post c) };

    fn run(&mut self, alloc: Global) {
        match self {
            Seat::Ends(_) => {}
            Seat::Runs(room) => run_room(alloc, room),
        }
    }
}
