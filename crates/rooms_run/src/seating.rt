//! The rooms, each at its place before it is run.
ghost use Rattle.std.specs.Prelude.{◌≡◌, ◌<◌, ◌+◌, ℕ, List, All, reverse, IfOk, vec_len};
ghost use Rattle.std.specs.List.{AllZip};
ghost use Rattle.rooms_run.specs.Opening.{IsKeyed};
ghost use Rattle.rooms_run.specs.Starting.{start_gives};
ghost use Rattle.rooms_run.specs.Seated.{SeatedFor};

use crate::opening::Keyed;
use crate::room::{Room, Seat};
use crate::start::Start;
use book_lock::BookLock;
use book_seat::{DeskPass, WorkerPass};
use desk_run::Stop;
use desk_shared::{Helper, Waiting};
use edge_io::{CalmSink, CalmSource, Memory};
use enc_worker::Gate;
use roster_desk::RosterDesk;
use std::alloc::Global;
use std::sync::Wait;
use tick_core::{Book, DeskCalls};

/// The conference of a room: the desk's side of its Book, which makes runs itself while it waits.
pub(crate) type Desked<'a, W, G> = Waiting<
    'a,
    W,
    DeskPass<'a, W>,
    Helper<'a, G, WorkerPass<'a, W>>,
>;

/// A room at its place, over a Book under a lock.
pub(crate) type Placed<'a, W, G> = Seat<&'a BookLock<Book>, RosterDesk, Desked<'a, W, G>>;

/// The room that begins so, over this Book.
fn seat_of<'a, W: Wait, G: Gate>(
    rt: &'a W,
    alloc: Global,
    gate: &'a G,
    mut keyed: Keyed<'a, W>,
    start: Start,
) -> Placed<'a, W, G>
    requires keyed { (n : ℕ) × (n < 65536) × IsKeyed n keyed }
    ensures seated { SeatedFor (λ c. c.desk) (λ l. l.now) (start_gives start) result }
{
    match start {
        Start::Ends(end) => {
            keyed.desk.end(); // else a worker would ask this room for ever
            Seat::Ends(end)
        }
        Start::Runs { roster, dump } => {
            let help = Helper {
                gate,
                turns: keyed.hire(),
            };
            let Keyed { lock, desk } = keyed;
            Seat::Runs(Room {
                lock,
                ticks: roster.ticks(),
                desk: RosterDesk::new(alloc, roster),
                conference: Waiting { rt, desk, help },
                dump: CalmSource::new(dump),
                out: CalmSink::new(alloc),
                end: Err(Stop::Memory),
            })
        }
    }
}

/// The rooms that begin so, from the last to the first.
pub(crate) fn seat_all<'a, W: Wait, G: Gate>(
    rt: &'a W,
    alloc: Global,
    gate: &'a G,
    mut keyed: Vec<Keyed<'a, W>>,
    mut starts: Vec<Start>,
) -> Result<Vec<Placed<'a, W, G>>, Memory>
    requires keyed { (n : ℕ) × (n < 65536) × All (IsKeyed n) keyed.items }
    requires even { vec_len keyed ≡ vec_len starts }
    ensures seated { IfOk result (λ seats. AllZip (λ start seat. SeatedFor (λ c. c.desk) (λ l. l.now) (start_gives start) seat)
        (reverse starts.items) seats.items) }
{
    let mut seats = Vec::new(alloc);
    'rooms: while let Some(start) = starts.pop() {
        let Some(next) = keyed.pop() else {
            unreachable!()
        };
        seats.push(seat_of(rt, alloc, gate, next, start))?;
    }
    Ok(seats)
}
