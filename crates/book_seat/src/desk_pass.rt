//! The desk's pass of a Book under a lock.

ghost use Rattle.std.specs.Prelude.{◌≡◌, ◌<◌, true};
ghost use Rattle.book_lock.specs.Views.{lending, hired, returned};

use crate::worker_pass::WorkerPass;
use book_lock::{BookLock, Pass};
use std::marker::Model;
use tick_core::Book;

/// The desk's side of a Book under a lock.
///
/// It stands for what its pass has seen, which is just what it has done itself: each call of `DeskCalls` is one turn at the
/// lock. Contracts see the lock that it is of, as `home`, and what the pass knows, as `view`.
#[derive(Drop)]
pub struct DeskPass<'a, W> {
    pub(crate) rt: &'a W,
    pub(crate) lock: &'a BookLock<Book>,
    pub(crate) pass: Pass<Book>,
}

impl<'a, W> Model for DeskPass<'a, W> {
    ghost use Rattle.std.specs.Prelude.{◌≡◌, true};
    ghost use Rattle.book_lock.specs.Known.{Known};
    ghost use Rattle.conference_spec.specs.declared.Entry.{Entry};
    ghost use Rattle.tick_core.specs.Locking.{Parts};

    ghost Value = { Known Entry Parts };

    ghost view = { λ d. d.pass };

    ghost invariant = { λ d. (d.pass.home ≡ d.lock.now) × (d.pass.view.desk ≡ true) };
}

impl<'a, W> DeskPass<'a, W> {
    /// The desk's side of the Book in this lock.
    pub fn new(rt: &'a W, lock: &'a BookLock<Book>, pass: Pass<Book>) -> DeskPass<'a, W>
        requires lock { pass.home ≡ lock.now }
        requires desk { pass.view.desk ≡ true }
        ensures { result ≡ pass }
    {
        DeskPass { rt, lock, pass }
    }

    /// A worker's side of the same Book, which has seen what the desk has. It takes no memory.
    pub fn worker(&mut self) -> WorkerPass<'a, W>
        requires room { self.old.view.out < 65536 }
        ensures desk { (self.new.home ≡ self.old.home) × (self.new.view ≡ lending self.old.view) }
        ensures worker { (result.pass.home ≡ self.old.home) × (result.pass.view ≡ hired self.old.view) × (result.taken ≡ 0) }
    {
        let pass = self.lock.split(&mut self.pass);
        WorkerPass::hired(self.rt, self.lock, pass)
    }

    /// Takes a worker's side back. The desk has then seen just what it had seen before. It takes no memory.
    pub fn take_in(&mut self, worker: WorkerPass<'a, W>)
        requires home { worker.pass.home ≡ self.old.home }
        ensures desk { (self.new.home ≡ self.old.home) × (self.new.view ≡ returned self.old.view) }
    {
        self.lock.join_back(&mut self.pass, worker.into_pass());
    }

    /// The pass itself, with which the lock can be closed. It takes no memory.
    pub fn into_pass(self) -> Pass<Book>
        ensures pass { result ≡ self.entry }
        ensures desk { result.view.desk ≡ true }
    {
        self.pass
    }
}
