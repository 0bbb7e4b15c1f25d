//! The rule of the lock, and the names of its steps.
ghost use Rattle.book_lock.specs.Boxed.{Boxed};
ghost use Rattle.book_lock.specs.Rule.{Rule};
ghost use Rattle.book_lock.specs.Views.{opening, spent, lending, hired, returned};
ghost use Rattle.book_lock.specs.Told.{Opened, Filled, Drawn, Looked, Grown, Passed};

use crate::turned::Turned;
use crate::view::View;
use atomic_table::{Join, Play, Split, TableRule};

/// Each ticket is one pass's, and whose ticket is served has the value.
pub struct Tickets;

impl<T: Turned> TableRule<Option<Box<T>>, View<T::Entry, T::State>, ()> for Tickets {
    ghost holds = { λ _. Rule (Boxed T.stands) };

    ghost first = { λ _. opening };
}

/// Takes the empty slot of a new lock.
pub(crate) struct Open;

impl<T: Turned> Play<Option<Box<T>>, View<T::Entry, T::State>> for Open {
    ghost then = { Opened (Boxed T.stands) };
}

/// Puts the slot of a new lock home, with its value.
pub(crate) struct Fill;

impl<T: Turned> Play<Option<Box<T>>, View<T::Entry, T::State>> for Fill {
    ghost then = { Filled (Boxed T.stands) };
}

/// Draws a ticket.
pub(crate) struct Draw;

impl<T: Turned> Play<Option<Box<T>>, View<T::Entry, T::State>> for Draw {
    ghost then = { Drawn (Boxed T.stands) };
}

/// Looks which ticket is served.
pub(crate) struct Look;

impl<T: Turned> Play<Option<Box<T>>, View<T::Entry, T::State>> for Look {
    ghost then = { Looked (Boxed T.stands) };
}

/// Counts the entries that were appended.
pub(crate) struct Grow;

impl<T: Turned> Play<Option<Box<T>>, View<T::Entry, T::State>> for Grow {
    ghost then = { Grown (Boxed T.stands) };
}

/// Passes the turn on.
pub(crate) struct Leave;

impl<T: Turned> Play<Option<Box<T>>, View<T::Entry, T::State>> for Leave {
    ghost then = { Passed (Boxed T.stands) };
}

/// Cuts a worker's pass off the desk's.
pub(crate) struct Lending;

impl<E, S> Split<View<E, S>> for Lending {
    ghost left = { lending };

    ghost right = { hired };
}

/// Puts a worker's pass back into the desk's.
pub(crate) struct Returning;

impl<E, S> Join<View<E, S>> for Returning {
    ghost both = { λ v _. returned v };

    ghost spent = { spent };
}
