//! The numbers that were given out, and the runs that wait.

ghost use Rattle.std.specs.Prelude.{◌≡◌, ◌+◌, ◌^◌, ◌<◌, ◌≤◌, [], ◌++◌, length, take, drop, OnOk, IfNone, option_to_list};
ghost use Rattle.std.specs.List.{insert};
ghost use Rattle.std.specs.VecDeque.{deque_len, deque_capacity};
ghost use Rattle.book_lists.specs.Levels.{TicketsRise};
ghost use Rattle.book_lists.specs.declared.seats.Ticket.{Ticket};
ghost use Rattle.conference_spec.specs.Members.{In};
ghost use Rattle.tick_core.specs.Queued.{IsOther, PutBack, Places};

use book_lists::Ticket;
use edge_io::Memory;
use g726_codec::{Meter, Triple};
use std::alloc::Global;
use std::collections::VecDeque;
use std::marker::Model;
use triple_table::{Placed, Table};

/// The Book's meter, and a ticket for each run that waits, by rising number.
///
/// Contracts see how many numbers were given out, the tickets, and `room`, how many tickets it can hold without memory.
#[derive(Drop)]
pub(crate) struct Queue {
    meter: Meter,
    tickets: VecDeque<Ticket>,
}

impl Model for Queue {
    ghost use Rattle.std.specs.Prelude.{◌≡◌, length};
    ghost use Rattle.std.specs.VecDeque.{deque_len, deque_capacity};
    ghost use Rattle.tick_core.specs.Queued.{Queued};

    ghost Value = { Queued };

    ghost view = { λ q. record { issued = q.meter; tickets = q.tickets.items; room = deque_capacity q.tickets } };

    ghost invariant = { λ q. deque_len q.tickets ≡ length q.tickets.items };
}

impl Queue {
    /// No number was given out.
    pub fn new(alloc: Global) -> Queue
        ensures issued { result.issued ≡ 0 }
        ensures tickets { result.tickets ≡ [] }
    {
        Queue {
            meter: Meter::new(),
            tickets: VecDeque::new(alloc),
        }
    }

    /// How many numbers were given out.
    pub fn issued(&self) -> u64
        ensures { result ≡ self.now.issued }
    {
        self.meter.issued()
    }

    /// How many runs wait.
    pub fn len(&self) -> usize
        ensures { result ≡ length self.now.tickets }
    {
        self.tickets.len()
    }

    /// Makes room for `n` tickets in all.
    pub fn reserve(&mut self, n: usize) -> Result<(), Memory>
        ensures issued { self.new.issued ≡ self.old.issued }
        ensures tickets { self.new.tickets ≡ self.old.tickets }
        ensures room { self.old.room ≤ self.new.room }
        ensures ok { OnOk result (n ≤ self.new.room) }
    {
        let more = n.saturating_sub(self.tickets.len());
        self.tickets.reserve(more)?;
        Ok(())
    }

    /// Takes the ticket of the least number.
    pub fn pop(&mut self) -> Option<Ticket>
        ensures issued { self.new.issued ≡ self.old.issued }
        ensures tickets { self.old.tickets ≡ option_to_list result ++ self.new.tickets }
        ensures none { IfNone result (self.old.tickets ≡ []) }
        ensures room { self.new.room ≡ self.old.room }
    {
        self.tickets.pop_front()
    }

    /// Puts the ticket of a run that waits again at its place.
    pub fn put_back(&mut self, ticket: Ticket)
        requires room { length self.old.tickets < self.old.room }
        requires rise { TicketsRise 0 self.old.tickets }
        requires other { (t : Ticket) → In t self.old.tickets → IsOther ticket t }
        ensures issued { self.new.issued ≡ self.old.issued }
        ensures tickets { PutBack self.old.tickets ticket self.new.tickets }
        ensures room { self.old.room ≤ self.new.room }
    {
        let at = place_of(&self.tickets, ticket.number);
        put_at(&mut self.tickets, at, ticket);
    }

    /// The place of a triple's run in a tick's table: it gets the next number and a ticket where it is new.
    pub fn place(&mut self, table: &mut Table, tick: u64, triple: Triple) -> usize
        requires rows { length table.old.rows < table.old.room }
        requires room { length self.old.tickets < self.old.room }
        requires numbers { self.old.issued < 2 ^ 62 }
        ensures places { Places tick triple table.old.rows self.old table.new.rows self.new result }
        ensures room { table.old.room ≤ table.new.room }
    {
        match table.place(triple, &mut self.meter) {
            Placed::New(at) => {
                let number = table.number(at);
                self.tickets.push_back_reserved(Ticket { number, tick, at });
                at
            }
            Placed::Joined(at) => at,
            Placed::Done(at) => at,
        }
    }
}

/// The place of a number among rising ones.
fn place_of(tickets: &VecDeque<Ticket>, number: u64) -> usize
    requires rise { TicketsRise 0 tickets.now.items }
    requires len { deque_len tickets.now ≡ length tickets.now.items }
    ensures within { result ≤ deque_len tickets.now }
    ensures lower { (t : Ticket) → In t (take result tickets.now.items) → t.number < number }
    ensures rest { (t : Ticket) → In t (drop result tickets.now.items) → number ≤ t.number }
{
    for at in 0..tickets.len() {
        if number <= tickets[at].number {
            return at;
        }
    }
    tickets.len()
}

/// Puts a ticket at a place, where there is room.
fn put_at(tickets: &mut VecDeque<Ticket>, at: usize, ticket: Ticket)
    requires within { at ≤ deque_len tickets.old }
    requires room { deque_len tickets.old < deque_capacity tickets.old }
    ensures items { tickets.new.items ≡ insert tickets.old.items at ticket }
    ensures len { deque_len tickets.new ≡ deque_len tickets.old + 1 }
    ensures room { deque_capacity tickets.old ≤ deque_capacity tickets.new }
{
    let Ok(()) = tickets.insert(at, ticket) else {
        unreachable!()
    };
}
