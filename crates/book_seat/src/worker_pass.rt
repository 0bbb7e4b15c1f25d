//! A worker's pass of a Book under a lock.

ghost use Rattle.std.specs.Prelude.{◌≡◌, ◌+◌, ◌<◌, ◌^◌, ◌∷◌, [], ℕ, true, false, IfErr, is_ok, if◌then◌else◌};
ghost use Rattle.conference_spec.specs.Feed.{ended};
ghost use Rattle.tick_core.specs.Standing.{IsKnown, TellsOver};
ghost use Rattle.book_seat.specs.Steps.{ClaimGives, PublishGives, BackGives, IsWanted};
ghost use Rattle.book_seat.specs.Taken.{Steps, TookTurn};

use crate::in_turn::{claim_in, give_back_in, publish_in};
use crate::names::LockName;
use book_lock::{BookLock, Pass};
use std::marker::Model;
use std::sync::Wait;
use std::thread;
use tick_core::{Book, Claim, Done, Job, Turns};

/// A worker's side of a Book under a lock, by which it claims runs and publishes results. Each call is one turn at the lock.
///
/// Contracts see its pass and how many results were taken from it.
#[derive(Drop)]
pub struct WorkerPass<'a, W> {
    rt: &'a W,
    lock: &'a BookLock<Book>,
    pass: Pass<Book>,
    taken: u64,
}

impl<'a, W> Model for WorkerPass<'a, W> {
    ghost use Rattle.std.specs.Prelude.{◌≡◌, true, false};
    ghost use Rattle.book_seat.specs.Seated.{Working};

    ghost Value = { Working };

    ghost view = { λ w. record { pass = w.pass; taken = w.taken } };

    ghost invariant = { λ w. (w.pass.home ≡ w.lock.now) × (w.pass.view.desk ≡ false) × (w.pass.view.worker ≡ true) };
}

impl<'a, W> WorkerPass<'a, W> {
    /// A worker's side, from which nothing was taken yet.
    pub(crate) fn hired(rt: &'a W, lock: &'a BookLock<Book>, pass: Pass<Book>) -> WorkerPass<'a, W>
        requires lock { pass.home ≡ lock.now }
        requires worker { (pass.view.desk ≡ false) × (pass.view.worker ≡ true) }
        ensures { result ≡ record { pass = pass; taken = 0 } }
    {
        WorkerPass {
            rt,
            lock,
            pass,
            taken: 0,
        }
    }

    /// The pass itself.
    pub(crate) fn into_pass(self) -> Pass<Book>
        ensures pass { result ≡ self.entry.pass }
        ensures worker { result.view.worker ≡ true }
    {
        self.pass
    }
}

impl<'a, W: Wait> WorkerPass<'a, W> {
    /// Publishes a result, in one turn, and counts nothing.
    fn publish_turn(&mut self, done: Done) -> Result<(), Done>
        ensures taken { self.new.taken ≡ self.old.taken }
        ensures home { self.new.pass.home ≡ self.old.pass.home }
        ensures turn { TookTurn self.old.pass.view self.new.pass.view (PublishGives done result) }
    {
        self.lock.turn(
            self.rt,
            &mut self.pass,
            move |book: &mut Book| -> Result<(), Done>
                requires { IsKnown book.old }
                ensures { Steps (PublishGives done result) book.old book.new }
            { publish_in(book, done) },
        )
    }
}

impl<'a, W: Wait> Turns for WorkerPass<'a, W> {
    type Lock = LockName;

    ghost ready = { λ w. Unit {0} };

    ghost over = { λ w. ended w.pass.view.seen ≡ true };

    ghost taken = { λ w n. w.taken ≡ n };

    ghost home = { λ w. w.pass.home ∷ [] };

    fn claim(&mut self) -> Claim
        requires ready { Unit {0} }
        ensures ready { Unit {0} }
        ensures over { TellsOver result (ended self.new.pass.view.seen ≡ true) }
        ensures taken { (n : ℕ) → self.old.taken ≡ n → self.new.taken ≡ n }
        ensures home { self.new.pass.home ∷ [] ≡ self.old.pass.home ∷ [] }
        ensures turn { TookTurn self.old.pass.view self.new.pass.view (ClaimGives result) }
        ensures wanted { IsWanted result self.new.pass.view.seen }
    {
        self.lock.turn(
            self.rt,
            &mut self.pass,
            move |book: &mut Book| claim_in(book),
        )
    }

    fn publish(&mut self, done: Done) -> Result<(), Done>
        requires ready { Unit {0} }
        ensures ready { Unit {0} }
        ensures taken { (n : ℕ) → self.old.taken ≡ n → self.new.taken ≡ n + (if is_ok result then 1 else 0) }
        ensures fits { (n : ℕ) → self.new.taken ≡ n → n < 2 ^ 64 }
        ensures comes_back { IfErr result (λ d. d ≡ done) }
        ensures home { self.new.pass.home ∷ [] ≡ self.old.pass.home ∷ [] }
        ensures turn { TookTurn self.old.pass.view self.new.pass.view (PublishGives done result) }
    {
        let answer = self.publish_turn(done);
        count_if(self.rt, &mut self.taken, answer.is_ok());
        answer
    }

    fn give_back(&mut self, job: Job) -> Result<(), Job>
        requires ready { Unit {0} }
        ensures ready { Unit {0} }
        ensures taken { (n : ℕ) → self.old.taken ≡ n → self.new.taken ≡ n }
        ensures comes_back { IfErr result (λ j. j ≡ job) }
        ensures home { self.new.pass.home ∷ [] ≡ self.old.pass.home ∷ [] }
        ensures turn { TookTurn self.old.pass.view self.new.pass.view (BackGives job result) }
    {
        self.lock.turn(
            self.rt,
            &mut self.pass,
            move |book: &mut Book| -> Result<(), Job>
                requires { IsKnown book.old }
                ensures { Steps (BackGives job result) book.old book.new }
            { give_back_in(book, job) },
        )
    }
}

/// One more, where a result was taken. Where all 2^64 - 1 were, it waits for ever.
fn count_if<W: Wait>(rt: &W, count: &mut u64, taken: bool)
    ensures counted { count.new ≡ count.old + (if taken then 1 else 0) }
    ensures fits { count.new < 2 ^ 64 }
{
    let before = *count;
    if !taken {
        return;
    }
    for _ in rt.forever() {
        if before < u64::MAX {
            *count = before + 1;
            return;
        }
        thread::yield_now();
    }
    unreachable!()
}
