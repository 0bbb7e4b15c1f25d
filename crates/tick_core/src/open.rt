//! An open tick: closed, and not collected yet.

ghost use Rattle.std.specs.Prelude.{◌≡◌, ◌+◌, ◌^◌, ◌≤◌, [], length, slice_get, slice_set, IfSome, option_copied, vec_len, vec_capacity};
ghost use Rattle.std.specs.List.{AllByRecursion};
ghost use Rattle.conference_spec.specs.Codec.{g726};
ghost use Rattle.conference_spec.specs.declared.Stage.TheVariants as stages;
ghost use Rattle.triple_table.specs.Rows.{staged, IsAtStage};
ghost use Rattle.book_lists.specs.Levels.{with_rows, state_at, state_of_seat, newly_known, all_finished};
ghost use Rattle.tick_core.specs.Opened.{Fits, Closes, Pulled, IsOutAt, IsServed, HasRoom, unknown};
ghost use Rattle.tick_core.specs.Posting.{IsReady, Walks, early};

use crate::jobs::Job;
use crate::mails::walk;
use crate::mixes::Mixes;
use crate::packets::Packets;
use crate::queue::Queue;
use crate::seating::{Blank, pull_seats, seat_all};
use book_lists::{Mail, Rest, Seat};
use conference_spec::{Packet, Stage};
use g726_codec::{EncState, Encoded, Permit, Triple};
use std::marker::Model;
use talk_mix::Tick;
use triple_table::Table;

/// A closed tick that isn't collected: its talkers, a seat for each listener, and its runs.
///
/// Contracts see its number, its talkers, its seats and its table's rows. There is room for each seat's run.
#[derive(Drop)]
pub(crate) struct Open {
    number: u64,
    talkers: Tick,
    seats: Vec<Seat>,
    table: Table,
    /// What those hear who aren't heard in it, from the first publication on that wants it.
    mixes: Mixes,
}

impl Model for Open {
    ghost use Rattle.book_lists.specs.Levels.{Level};

    ghost Value = { Level };

    ghost use Rattle.tick_core.specs.Inside.{level_of, IsOpen};

    ghost view = { level_of };

    ghost invariant = { IsOpen };
}

impl Open {
    /// The tick of this number, closed now with these talkers: each present listener has its seat, and those whose state is
    /// known have their run.
    pub fn closed(
        number: u64,
        talkers: Tick,
        blank: Blank,
        present: &[Rest],
        ticks: &[Open],
        queue: &mut Queue,
    ) -> Open
        requires blank { HasRoom blank (length present.now) }
        requires room { length queue.old.tickets + length present.now ≤ queue.old.room }
        requires numbers { queue.old.issued + length present.now ≤ 2 ^ 62 }
        ensures closes { Closes number talkers present.now ticks.now queue.old result queue.new }
    {
        let Blank {
            mut seats,
            mut table,
        } = blank;
        seat_all(
            number, &talkers, present, ticks, &mut seats, &mut table, queue,
        );
        let mixes = Mixes::new();
        Open {
            number,
            talkers,
            seats,
            table,
            mixes,
        }
    }

    /// How many listeners it has.
    pub fn len(&self) -> usize
        ensures { result ≡ length self.now.seats }
    {
        self.seats.len()
    }

    /// The state that a run of this tick leaves, if it is finished.
    fn state_after(&self, run: Option<usize>) -> Option<&EncState>
        ensures { option_copied result ≡ state_of_seat g726 self.now.rows run }
    {
        let at = run?;
        if at >= self.table.len() {
            return None;
        }
        if matches!(self.table.stage(at), Stage::Finished) {
            Some(self.table.after(at))
        } else {
            None
        }
    }

    /// The state that the listener at this place has after the tick, if its run is finished.
    pub fn state_at(&self, place: usize) -> Option<&EncState>
        ensures { option_copied result ≡ state_at g726 self.now place }
    {
        match self.seats.get(place) {
            Some(seat) => self.state_after(seat.run),
            None => None,
        }
    }

    /// The state that a seat of the next tick, which has no run yet, takes from this one, if it is known.
    pub fn newly_known(&self, seat: &Seat) -> Option<&EncState>
        ensures { option_copied result ≡ newly_known g726 self.now seat.now }
    {
        if seat.run.is_some() {
            return None;
        }
        match seat.earlier {
            Some(place) => self.state_at(place),
            None => None,
        }
    }

    /// Gives a run to each seat whose state is known by the tick before, and says whether one of these is finished already.
    pub fn pull(&mut self, older: &Open, queue: &mut Queue) -> bool
        requires fits { Fits self.old }
        requires room { length queue.old.tickets + unknown self.old.seats ≤ queue.old.room }
        requires numbers { queue.old.issued + unknown self.old.seats ≤ 2 ^ 62 }
        ensures pulled { Pulled older.now self.old queue.old self.new queue.new result }
    {
        self.mixes.forget_runs();
        pull_seats(
            self.number,
            &self.talkers,
            older,
            &mut self.mixes,
            &mut self.seats,
            &mut self.table,
            queue,
        )
    }

    /// The place of the run of this triple, which is looked for at `from` first, if it has this number and is out.
    pub fn find_out(&self, number: u64, triple: &Triple, from: usize) -> Option<usize>
        ensures { IsOutAt self.now number triple.now result }
    {
        let at = self.table.find_from(from, triple)?;
        if self.table.number(at) == number && matches!(self.table.stage(at), Stage::Out) {
            Some(at)
        } else {
            None
        }
    }

    /// Takes a waiting run, as a job of this tick.
    pub fn take(&mut self, tick: u64, at: usize) -> Job
        requires { IsAtStage self.old.rows at stages.Waiting }
        ensures job { IfSome (slice_get self.old.rows at) (λ r. result ≡ record { number = r.number; task = record { tick = tick; triple = r.triple } }) }
        ensures rows { IfSome (slice_get self.old.rows at) (λ r. self.new ≡ with_rows self.old (slice_set self.old.rows at (staged r stages.Out))) }
    {
        let permit = self.table.take(at);
        Job::of(tick, at, permit, self.table.triple_at(at))
    }

    /// Puts the permit of a run that is out back: it waits again.
    pub fn put_back(&mut self, at: usize, permit: Permit)
        requires out { IsAtStage self.old.rows at stages.Out }
        requires number { IfSome (slice_get self.old.rows at) (λ r. permit ≡ r.number) }
        ensures rows { IfSome (slice_get self.old.rows at) (λ r. self.new ≡ with_rows self.old (slice_set self.old.rows at (staged r stages.Waiting))) }
    {
        self.table.put_back(at, permit);
    }

    /// Keeps what the run at this place has made.
    pub fn finish(&mut self, at: usize, encoded: &Encoded)
        requires out { IsAtStage self.old.rows at stages.Out }
        requires number { IfSome (slice_get self.old.rows at) (λ r. encoded.now.number ≡ r.number) }
        requires triple { IfSome (slice_get self.old.rows at) (λ r. record { rate = encoded.now.rate; state = encoded.now.before; mix = encoded.now.mix } ≡ r.triple) }
        ensures rows { IfSome (slice_get self.old.rows at) (λ r. self.new ≡ with_rows self.old (slice_set self.old.rows at (staged r stages.Finished))) }
    {
        self.table.finish(at, encoded);
    }

    /// Whether each of its runs is finished.
    pub fn is_over(&self) -> bool
        ensures { result ≡ all_finished self.now.rows }
    {
        all_over(&self.table)
    }

    /// The tick's packets, made in room that is there; each of its listeners has a finished run, and each mail its turn.
    pub fn into_packets(self, outbox: &mut [Mail], room: Vec<Packet>) -> Packets
        requires ready { AllByRecursion IsReady outbox.old }
        requires served { AllByRecursion (IsServed self.rows) self.seats }
        requires empty { (room.items ≡ []) × (vec_len room ≡ 0) }
        requires room { early self.number outbox.old ≤ vec_capacity room }
        ensures tick { result.tick ≡ self.number }
        ensures walks { Walks self.number self.rows self.seats outbox.old [] outbox.new result.packets }
    {
        let mut packets = room;
        walk(self.number, outbox, &self.seats, &self.table, &mut packets);
        Packets::of(self.number, packets)
    }
}

/// Whether each run of a table is finished.
fn all_over(table: &Table) -> bool
    ensures { result ≡ all_finished table.now.rows }
{
    for at in 0..table.len() {
        if !matches!(table.stage(at), Stage::Finished) {
            return false;
        }
    }
    true
}
