//! The Book as the value of a lock.

ghost use Rattle.tick_core.specs.Locking.{StandsWith};

use crate::book::Book;
use book_lock::Turned;
use conference_spec::Entry;
use std::marker::Model;

/// What contracts see of a Book beside its feed: how many numbers were given out, and the runs of the ticks that aren't
/// collected. No value of it is made.
#[derive(Drop)]
pub struct CoreState {
    unmade: (),
}

impl Model for CoreState {
    ghost use Rattle.conference_spec.specs.Machine.{begun};
    ghost use Rattle.tick_core.specs.Locking.{Parts, parts_of};

    ghost Value = { Parts };

    ghost view = { λ _. parts_of begun };
}

impl Turned for Book {
    type Entry = Entry;

    type State = CoreState;

    ghost stands = { StandsWith };

    fn fed(&self) -> u64 {
        Book::fed(self)
    }
}
