//! A worker's passes of several rooms, which are asked in turn.

ghost use Rattle.std.specs.Prelude.{◌≡◌, ◌+◌, ◌<◌, ◌≤◌, ◌^◌, ◌∷◌, [], ◌++◌, ℕ, Option, None, Some, Err, length, map, All, IfErr, OnOk, ◌↔◌, true, is_ok, if◌then◌else◌};
ghost use Rattle.std.specs.Option.{option_to_list};
ghost use Rattle.conference_spec.specs.Feed.{ended};
ghost use Rattle.tick_core.specs.Standing.{TellsOver};
ghost use Rattle.book_seat.specs.Steps.{PublishGives, BackGives};
ghost use Rattle.room_pool.specs.Asking.{IsAt};
ghost use Rattle.room_pool.specs.Turning.{Answers, AskedFrom, AskedInTurn, ComesToLast, TurnedLast, first_of};

use crate::asking::{Asked, ask_from};
use book_seat::{LockName, WorkerPass};
use std::alloc::Global;
use std::marker::Model;
use std::sync::Wait;
use std::thread;
use tick_core::{Claim, Done, Job, Turns};

/// The passes that a worker has of several rooms, by which it claims runs and publishes results in one room after the other.
///
/// Contracts see the passes, in the order in which they were added, the room of the last job that was claimed, and how many results
/// were taken.
#[derive(Drop)]
pub struct RoomTurns<'a, W> {
    rt: &'a W,
    passes: Vec<WorkerPass<'a, W>>,
    last: Option<usize>,
    taken: u64,
}

impl<'a, W> Model for RoomTurns<'a, W> {
    ghost use Rattle.room_pool.specs.Turning.{Turning, IsWithin};

    ghost Value = { Turning };

    ghost view = { λ t. record { passes = t.passes.items; last = t.last; taken = t.taken } };

    ghost invariant = { λ t. IsWithin t.last t.passes.items };
}

impl<'a, W> RoomTurns<'a, W> {
    /// No passes. Takes no memory.
    pub fn new(rt: &'a W, alloc: Global) -> RoomTurns<'a, W>
        ensures { result ≡ record { passes = []; last = None; taken = 0 } }
    {
        RoomTurns {
            rt,
            passes: Vec::new(alloc),
            last: None,
            taken: 0,
        }
    }

    /// Adds a pass behind the others.
    ///
    /// # Errors
    ///
    /// The pass comes back where there was no memory.
    pub fn add(&mut self, pass: WorkerPass<'a, W>) -> Result<(), WorkerPass<'a, W>>
        ensures added { OnOk result (self.new ≡ record self.old { passes = self.old.passes ++ pass.entry ∷ [] }) }
        ensures comes_back { IfErr result (λ p. (p ≡ pass.entry) × (self.new ≡ self.old)) }
    {
        match self.passes.push(pass) {
            Ok(()) => Ok(()),
            Err(failed) => Err(failed.value),
        }
    }

    /// Takes the pass that was added last; `None` exactly where none is left. Then no job counts as claimed.
    pub fn take(&mut self) -> Option<WorkerPass<'a, W>>
        ensures passes { self.old.passes ≡ self.new.passes ++ option_to_list result }
        ensures none { (result ≡ None) ↔ (self.old.passes ≡ []) }
        ensures rest { (self.new.last ≡ None) × (self.new.taken ≡ self.old.taken) }
    {
        self.last = None;
        self.passes.pop()
    }

    /// The first room that is to be asked: the one after the last that gave a job.
    fn first(&self) -> usize
        ensures first { result ≡ first_of self.now.last }
        ensures within { result ≤ length self.now.passes }
    {
        match self.last {
            Some(at) => at + 1,
            None => 0,
        }
    }
}

impl<'a, W: Wait> RoomTurns<'a, W> {
    /// Asks the rooms from the first one on, and then those before it.
    fn ask(&mut self) -> Asked
        ensures asked { AskedFrom Answers (first_of self.old.last) self.old.passes self.new.passes result }
        ensures within { IsAt result (length self.old.passes) }
        ensures count { length self.new.passes ≡ length self.old.passes }
        ensures rest { (self.new.last ≡ self.old.last) × (self.new.taken ≡ self.old.taken) }
    {
        let first = self.first();
        ask_from(first, self.passes.as_mut_slice())
    }

    /// Publishes a result to the room at this place.
    fn publish_at(&mut self, at: usize, done: Done) -> Result<(), Done>
        requires last { self.old.last ≡ Some at }
        ensures turned { TurnedLast self.old self.new (PublishGives done result) }
        ensures rest { (self.new.last ≡ self.old.last) × (self.new.taken ≡ self.old.taken) }
        ensures comes_back { IfErr result (λ d. d ≡ done) }
    {
        let pass = &mut self.passes[at];
        pass.publish(done)
    }

    /// Publishes a result to the room of the last job, and counts nothing.
    fn publish_last(&mut self, done: Done) -> Result<(), Done>
        ensures comes { ComesToLast self.old self.new (PublishGives done result) (result ≡ Err done) }
        ensures home { map (λ w. w.pass.home) self.new.passes ≡ map (λ w. w.pass.home) self.old.passes }
        ensures rest { (self.new.last ≡ self.old.last) × (self.new.taken ≡ self.old.taken) }
        ensures comes_back { IfErr result (λ d. d ≡ done) }
    {
        match self.last {
            Some(at) => self.publish_at(at, done),
            None => Err(done),
        }
    }

    /// Gives a job back to the room at this place.
    fn give_back_at(&mut self, at: usize, job: Job) -> Result<(), Job>
        requires last { self.old.last ≡ Some at }
        ensures turned { TurnedLast self.old self.new (BackGives job result) }
        ensures rest { (self.new.last ≡ self.old.last) × (self.new.taken ≡ self.old.taken) }
        ensures comes_back { IfErr result (λ j. j ≡ job) }
    {
        let pass = &mut self.passes[at];
        pass.give_back(job)
    }
}

impl<'a, W: Wait> Turns for RoomTurns<'a, W> {
    type Lock = LockName;

    ghost ready = { λ t. Unit {0} };

    ghost over = { λ t. All (λ w. ended w.pass.view.seen ≡ true) t.passes };

    ghost taken = { λ t n. t.taken ≡ n };

    ghost home = { λ t. map (λ w. w.pass.home) t.passes };

    /// Asks the rooms in turn, from the one after the last that gave a job, each at most once.
    fn claim(&mut self) -> Claim
        requires ready { Unit {0} }
        ensures ready { Unit {0} }
        ensures over { TellsOver result (All (λ w. ended w.pass.view.seen ≡ true) self.new.passes) }
        ensures taken { (n : ℕ) → self.old.taken ≡ n → self.new.taken ≡ n }
        ensures home { map (λ w. w.pass.home) self.new.passes ≡ map (λ w. w.pass.home) self.old.passes }
        ensures asked { AskedInTurn self.old self.new result }
    {
        match self.ask() {
            Asked::Job { at, job } => {
                self.last = Some(at);
                Claim::Job(job)
            }
            Asked::Nothing { over: true } => Claim::Over,
            Asked::Nothing { over: false } => Claim::Idle,
        }
    }

    /// Publishes to the room of the last job.
    fn publish(&mut self, done: Done) -> Result<(), Done>
        requires ready { Unit {0} }
        ensures ready { Unit {0} }
        ensures taken { (n : ℕ) → self.old.taken ≡ n → self.new.taken ≡ n + (if is_ok result then 1 else 0) }
        ensures fits { (n : ℕ) → self.new.taken ≡ n → n < 2 ^ 64 }
        ensures comes_back { IfErr result (λ d. d ≡ done) }
        ensures home { map (λ w. w.pass.home) self.new.passes ≡ map (λ w. w.pass.home) self.old.passes }
        ensures comes { ComesToLast self.old self.new (PublishGives done result) (result ≡ Err done) }
    {
        let answer = self.publish_last(done);
        count_if(self.rt, &mut self.taken, answer.is_ok());
        answer
    }

    /// Gives back to the room of the last job.
    fn give_back(&mut self, job: Job) -> Result<(), Job>
        requires ready { Unit {0} }
        ensures ready { Unit {0} }
        ensures taken { (n : ℕ) → self.old.taken ≡ n → self.new.taken ≡ n }
        ensures comes_back { IfErr result (λ j. j ≡ job) }
        ensures home { map (λ w. w.pass.home) self.new.passes ≡ map (λ w. w.pass.home) self.old.passes }
        ensures comes { ComesToLast self.old self.new (BackGives job result) (result ≡ Err job) }
    {
        match self.last {
            Some(at) => self.give_back_at(at, job),
            None => Err(job),
        }
    }
}

/// One more, where a result was taken. Where all 2^64 - 1 were, it waits for ever.
fn count_if<W: Wait>(rt: &W, count: &mut u64, taken: bool)
    ensures counted { count.new ≡ count.old + (if taken then 1 else 0) }
    ensures fits { count.new < 2 ^ 64 }
{
    let before = *count;
    if !taken {
        return;
    }
    for _ in rt.forever() {
        if before < u64::MAX {
            *count = before + 1;
            return;
        }
        thread::yield_now();
    }
    unreachable!()
}
