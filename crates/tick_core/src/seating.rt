//! What is done for one listener after another: seats and runs.

ghost use Rattle.std.specs.Prelude.{◌≡◌, ◌+◌, ◌^◌, ◌<◌, ◌≤◌, [], length, option_copied, IfOk, vec_capacity};
ghost use Rattle.std.specs.List.{All, AllZip};
ghost use Rattle.conference_spec.specs.Codec.{g726};
ghost use Rattle.book_lists.specs.Levels.{state_of_rest, place_of, rests_after};
ghost use Rattle.tick_core.specs.Opened.{HasRoom, RoomFor, GivesRun, GivesFirst, SeatsPulled, SeatsClosed, Settled, SettledAfter, unknown};
ghost use Rattle.tick_core.specs.Hearing.{Remembers};

use crate::mixes::Mixes;
use crate::open::Open;
use crate::queue::Queue;
use book_lists::{Origin, Rest, Seat};
use conference_spec::Stage;
use edge_io::Memory;
use g726_codec::EncState;
use std::alloc::Global;
use talk_mix::Tick;
use triple_table::Table;

/// What a tick is to be closed into: all the memory that it will want.
#[derive(Drop)]
pub(crate) struct Blank {
    pub seats: Vec<Seat>,
    pub table: Table,
}

impl Blank {
    /// Room for `n` listeners.
    pub fn with_room(alloc: Global, n: usize) -> Result<Blank, Memory>
        ensures { IfOk result (λ b. HasRoom b n) }
    {
        let seats = Vec::with_capacity(alloc, n)?;
        let table = Table::with_room(alloc, n)?;
        Ok(Blank { seats, table })
    }
}

/// The state that a present listener is known to be in.
fn state_of<'a>(rest: &'a Rest, ticks: &'a [Open]) -> Option<&'a EncState>
    ensures { option_copied result ≡ state_of_rest g726 ticks.now rest.now.origin }
{
    match &rest.origin {
        Origin::Known(state) => Some(state),
        Origin::Earlier(place) => match ticks.first() {
            Some(newest) => newest.state_at(*place),
            None => None,
        },
    }
}

/// The seat of a present listener at a tick that is closed now, with its run where its state is known.
fn first_seat(
    number: u64,
    talkers: &Tick,
    rest: &Rest,
    known: Option<&EncState>,
    mixes: &mut Mixes,
    table: &mut Table,
    queue: &mut Queue,
) -> Seat
    requires remembers { Remembers talkers.now table.old.rows mixes.old }
    requires rows { length table.old.rows < table.old.room }
    requires room { length queue.old.tickets < queue.old.room }
    requires numbers { queue.old.issued < 2 ^ 62 }
    ensures first { GivesFirst number talkers.now rest.now (option_copied known.entry) table.old.rows queue.old table.new.rows queue.new result }
    ensures remembers { Remembers talkers.now table.new.rows mixes.new }
    ensures table_room { table.old.room ≤ table.new.room }
{
    let run = match known {
        Some(state) => Some(mixes.place(number, talkers, &rest.spec, state, table, queue)),
        None => None,
    };
    Seat {
        spec: rest.spec,
        heard: rest.heard,
        earlier: earlier_place(rest.origin),
        run,
    }
}

/// A listener's place at the newest closed tick, where its state comes from it.
fn earlier_place(origin: Origin) -> Option<usize>
    ensures { result ≡ place_of origin }
{
    match origin {
        Origin::Known(_) => None,
        Origin::Earlier(place) => Some(place),
    }
}

/// Gives each present listener a seat at a tick that is closed now.
pub(crate) fn seat_all(
    number: u64,
    talkers: &Tick,
    present: &[Rest],
    ticks: &[Open],
    seats: &mut Vec<Seat>,
    table: &mut Table,
    queue: &mut Queue,
)
    requires empty { (seats.old.items ≡ []) × (table.old.rows ≡ []) }
    requires seats { length present.now ≤ vec_capacity seats.old }
    requires rows { length present.now ≤ table.old.room }
    requires room { length queue.old.tickets + length present.now ≤ queue.old.room }
    requires numbers { queue.old.issued + length present.now ≤ 2 ^ 62 }
    ensures closed { SeatsClosed number talkers.now ticks.now present.now queue.old seats.new.items table.new.rows queue.new }
    ensures table_room { table.old.room ≤ table.new.room }
{
    let mut mixes = Mixes::new();
    for rest in present {
        let known = state_of(rest, ticks);
        let seat = first_seat(number, talkers, rest, known, &mut mixes, table, queue);
        seats.push_reserved(seat);
    }
}

/// Gives a seat its run, where its state is known now, and says whether the run is finished already.
fn pull_seat(
    number: u64,
    talkers: &Tick,
    known: Option<&EncState>,
    seat: &mut Seat,
    mixes: &mut Mixes,
    table: &mut Table,
    queue: &mut Queue,
) -> bool
    requires remembers { Remembers talkers.now table.old.rows mixes.old }
    requires room { RoomFor (option_copied known) table.old queue.old }
    ensures gives { GivesRun number talkers.now (option_copied known.entry) seat.old table.old.rows queue.old seat.new table.new.rows queue.new result }
    ensures remembers { Remembers talkers.now table.new.rows mixes.new }
    ensures table_room { table.old.room ≤ table.new.room }
{
    let Some(state) = known else {
        return false;
    };
    let at = mixes.place(number, talkers, &seat.spec, state, table, queue);
    seat.run = Some(at);
    matches!(table.stage(at), Stage::Finished)
}

/// Gives a run to each seat whose state is known by the tick before, and says whether one of these is finished already.
pub(crate) fn pull_seats(
    number: u64,
    talkers: &Tick,
    older: &Open,
    mixes: &mut Mixes,
    seats: &mut Vec<Seat>,
    table: &mut Table,
    queue: &mut Queue,
) -> bool
    requires remembers { Remembers talkers.now table.old.rows mixes.old }
    requires rows { length table.old.rows + unknown seats.old.items ≤ table.old.room }
    requires room { length queue.old.tickets + unknown seats.old.items ≤ queue.old.room }
    requires numbers { queue.old.issued + unknown seats.old.items ≤ 2 ^ 62 }
    ensures pulled { SeatsPulled number talkers.now older.now seats.old.items table.old.rows queue.old seats.new.items table.new.rows queue.new result }
    ensures remembers { Remembers talkers.now table.new.rows mixes.new }
    ensures table_room { table.old.room ≤ table.new.room }
{
    let mut moved = false;
    for place in 0..seats.len() {
        let known = older.newly_known(&seats[place]);
        let done = pull_seat(
            number,
            talkers,
            known,
            &mut seats[place],
            mixes,
            table,
            queue,
        );
        moved = moved || done;
    }
    moved
}

/// Each present listener has heard one tick more, and is at its seat of the tick that was closed.
pub(crate) fn seated(present: &mut [Rest])
    requires { All (λ r. r.heard < 2 ^ 63) present.old }
    ensures { present.new ≡ rests_after 0 present.old }
{
    for place in 0..present.len() {
        let rest = &mut present[place];
        rest.heard += 1;
        rest.origin = Origin::Earlier(place);
    }
}

/// Each present listener whose seat's run is finished is in the state that this leaves.
fn settle(present: &mut [Rest], newest: &Open)
    ensures { AllZip (Settled newest.now) present.old present.new }
{
    for rest in present.iter_mut() {
        if let Origin::Earlier(place) = rest.origin {
            if let Some(state) = newest.state_at(place) {
                rest.origin = Origin::Known(*state);
            }
        }
    }
}

/// Where no tick is open behind the oldest one, each present listener's state is what its run there leaves.
pub(crate) fn settle_after(present: &mut [Rest], newer: &[Open], oldest: &Open)
    ensures { SettledAfter newer.now oldest.now present.old present.new }
{
    if newer.is_empty() {
        settle(present, oldest);
    }
}
