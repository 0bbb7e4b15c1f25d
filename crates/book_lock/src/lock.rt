//! The lock and its passes.

ghost use Rattle.std.specs.Prelude.{◌≡◌, ℕ, ◌<◌, true, List, IfOk};
ghost use Rattle.std.specs.Fn.{FnOnceReturnsAtMut};
ghost use Rattle.book_lock.specs.Views.{first_desk, lending, hired, returned};
ghost use Rattle.book_lock.specs.Turns.{MayFind, OnlyAppends, Turns};

use crate::plays::{Lending, Returning, Tickets};
use crate::steps::{SLOT, called, draw, enter, fill, leave, put_back, settle, take_out};
use crate::turned::Turned;
use crate::view::View;
use atomic_table::{Seat, Table};
use edge_io::Memory;
use std::alloc::Global;
use std::marker::Model;
use std::sync::Wait;

/// A lock round one value.
///
/// Contracts see which lock it is. A lock that is dropped drops its value.
#[derive(Drop)]
pub struct BookLock<T: Turned> {
    table: Table<Option<Box<T>>, View<T::Entry, T::State>, (), Tickets, Global>,
}

impl<T: Turned> Model for BookLock<T> {
    ghost use Rattle.std.specs.Prelude.{◌≡◌};
    ghost use Rattle.atomic_table.specs.Seated.{TableId, table_id_coded};

    ghost Value = { TableId };

    ghost coded = { table_id_coded };

    ghost view = { λ l. l.table.shared.table_id };

    ghost invariant = { λ l. (l.table.shared.table_id.words ≡ 3) × (l.table.shared.table_id.slots ≡ 1) };
}

/// The right to take turns at one lock.
///
/// Contracts see the lock that it is of, as `home`, and what the pass knows, as `view`. A worker's pass that is dropped
/// stays out: its lock can't be closed any more, only dropped.
#[derive(Drop)]
pub struct Pass<T: Turned> {
    seat: Seat<Option<Box<T>>, View<T::Entry, T::State>>,
}

impl<T: Turned> Model for Pass<T> {
    ghost use Rattle.std.specs.Prelude.{◌≡◌, []};
    ghost use Rattle.book_lock.specs.Known.{Known};
    ghost use Rattle.book_lock.specs.Views.{Idle};

    ghost Value = { Known T.Entry T.State };

    ghost view = { λ p. record { home = p.seat.table_id; view = p.seat.me.0 } };

    ghost invariant = { λ p. Idle p.seat.me.0 × (p.seat.me.1 ≡ []) };
}

impl<T: Turned> BookLock<T> {
    /// A lock round this value, and the desk's pass of it. Where there is no memory, the value is dropped.
    pub fn new(alloc: Global, value: T) -> Result<(BookLock<T>, Pass<T>), Memory>
    where
        T: Drop,
        requires stands { (feed : List T.Entry) × (state : T.State) × T.stands value feed state }
        ensures lock { IfOk result (λ r. r.1.home ≡ r.0) }
        ensures desk { IfOk result (λ r. r.1.view ≡ first_desk r.1.view.seen) }
        ensures seen { IfOk result (λ r. (state : T.State) × T.stands value r.1.view.seen state) }
    {
        let value = Box::new(alloc, value)?;
        let (table, mut seat) = Table::vacant(alloc, &[0, 0, 0], 1, &())?;
        fill(&table.shared, &mut seat, value);
        Ok((BookLock { table }, Pass { seat }))
    }

    /// Waits for the pass's turn, and calls `f` on the value, once.
    ///
    /// `f` may append entries, at the desk's pass alone. While the pass waits, it gives the processor to other threads, after some microseconds.
    pub fn turn<R, F: FnOnce(&mut T) -> R, W: Wait>(&self, rt: &W, pass: &mut Pass<T>, f: F) -> R
        requires lock { pass.old.home ≡ self.now }
        requires callable { (b : _) (feed : List T.Entry) (state : T.State) → T.stands b.now feed state → MayFind pass.old.view feed → F.pre f b }
        requires appends { (r : R) → OnlyAppends T.stands pass.old.view (λ x y. FnOnceReturnsAtMut F.FnOnce f x r y) }
        ensures lock { pass.new.home ≡ pass.old.home }
        ensures turn { Turns T.stands (λ x y. FnOnceReturnsAtMut F.FnOnce f x result y) pass.old.view pass.new.view }
    {
        let board = &self.table.shared;
        let seat = &mut pass.seat;
        let ticket = draw(rt, board, seat);
        enter(rt, board, seat, ticket);
        let mut value = take_out(board, seat);
        let before = value.fed();
        let answer = called(&mut value, f);
        let appended = value.fed() - before;
        put_back(board, seat, value);
        settle(board, seat, appended);
        leave(board, seat);
        answer
    }

    /// A worker's pass, which has seen what the desk's pass has. Takes no memory.
    pub fn split(&self, pass: &mut Pass<T>) -> Pass<T>
        requires lock { pass.old.home ≡ self.now }
        requires desk { pass.old.view.desk ≡ true }
        requires room { pass.old.view.out < 65536 }
        ensures lock { (pass.new.home ≡ pass.old.home) × (result.home ≡ pass.old.home) }
        ensures desk { pass.new.view ≡ lending pass.old.view }
        ensures worker { result.view ≡ hired pass.old.view }
    {
        let seat = self.table.shared.split_seat::<Lending>(&mut pass.seat);
        Pass { seat }
    }

    /// Takes a worker's pass back. The desk's pass has then seen just what it had seen before.
    pub fn join_back(&self, pass: &mut Pass<T>, other: Pass<T>)
        requires lock { (pass.old.home ≡ self.now) × (other.home ≡ self.now) }
        requires desk { pass.old.view.desk ≡ true }
        requires worker { other.view.worker ≡ true }
        ensures lock { pass.new.home ≡ pass.old.home }
        ensures desk { pass.new.view ≡ returned pass.old.view }
    {
        let Pass { seat } = other;
        self.table
            .shared
            .join_seat::<Returning>(&mut pass.seat, seat);
    }

    /// Takes the lock apart, and gives its value, which stands for what the desk's pass has seen.
    pub fn close(self, pass: Pass<T>) -> T
        requires lock { pass.home ≡ self }
        requires desk { pass.view.desk ≡ true }
        requires alone { pass.view.out ≡ 0 }
        ensures stands { (state : T.State) × T.stands result pass.view.seen state }
    {
        let BookLock { table } = self;
        let Pass { seat } = pass;
        let mut closed = table.close_with(seat);
        let slot = closed.take(SLOT);
        closed.free();
        let Some(value) = slot else { unreachable!() };
        Box::into_inner(value)
    }
}
