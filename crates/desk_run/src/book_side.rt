//! The Book as the conference of a session.
ghost use Rattle.std.specs.Prelude.{◌≡◌, ◌<◌, ◌-◌};
ghost use Rattle.conference_spec.specs.Machine.{Core};
ghost use Rattle.tick_core.specs.Standing.{Stands};
ghost use Rattle.desk_run.specs.BookSide.{IsWhole, HasRun, waiting};

use crate::sides::{Audience, Conference};
use conference_spec::JoinSpec;
use edge_io::Memory;
use std::alloc::Global;
use talk_mix::Tick;
use tick_core::{Book, Claim, CloseFault, JoinFault, Packets};

impl Audience for Book {
    ghost use Rattle.desk_run.specs.BookSide.{HandedAll};

    type Post = ();

    ghost stands = { HandedAll };

    ghost post = { λ b. tt };

    fn join(&mut self, spec: JoinSpec) -> Result<(), Memory> {
        match Book::join(self, spec) {
            Ok(()) => Ok(()),
            Err(JoinFault::Memory) => Err(Memory),
            Err(JoinFault::Used | JoinFault::Full) => unreachable!(),
        }
    }

    fn leave(&mut self, member: u32) {
        let _left = Book::leave(self, member);
    }
}

impl Conference for Book {
    /// Closes the tick, makes all its runs, and hands it out.
    fn encode(&mut self, alloc: Global, tick: Tick) -> Result<Vec<Packets>, Memory> {
        match self.close(tick) {
            Ok(()) => {}
            Err(CloseFault::Memory) => return Err(Memory),
            Err(CloseFault::TicksOver | CloseFault::Long | CloseFault::Backlog) => unreachable!(),
        }
        run_all(self);
        let Ok(packets) = self.collect() else {
            unreachable!()
        };
        let mut ticks = Vec::new(alloc);
        ticks.push(packets)?;
        Ok(ticks)
    }

    /// No tick is left to be handed out.
    fn next(&mut self) -> Option<Packets> {
        None
    }

    fn cut(&mut self) {
        Book::cut(self);
    }
}

/// Makes all runs that wait.
fn run_all(book: &mut Book)
    requires { (c : Core) × Stands book.old c × IsWhole c }
    ensures { (c : Core) → Stands book.old c → IsWhole c → HasRun 0 c book.new }
{
    for _ in 0..book.waiting() {
        run_next(book);
    }
}

/// Makes the next run that waits: it is claimed, done and published.
fn run_next(book: &mut Book)
    requires { (c : Core) × Stands book.old c × IsWhole c × (0 < waiting c) }
    ensures { (c : Core) → Stands book.old c → IsWhole c → HasRun (waiting c - 1) c book.new }
{
    let Claim::Job(job) = book.claim() else {
        unreachable!()
    };
    let Ok(()) = book.publish(job.run()) else {
        unreachable!()
    };
}
