//! Passes that are asked for a job, one after the other.

ghost use Rattle.std.specs.Prelude.{◌≡◌, ◌+◌, ◌<◌, ◌≤◌, ◌^◌, length};
ghost use Rattle.room_pool.specs.Turning.{Answers, AskedEach, AskedFrom};
ghost use Rattle.tick_core.specs.declared.jobs.Claim.{Claim};
ghost use Rattle.room_pool.specs.Asking.{IsAt, behind_one, with_over};

use book_seat::WorkerPass;
use std::sync::Wait;
use tick_core::{Claim, Job, Turns};

/// A pass that tells what each claim did to it.
pub(crate) trait Asks {
    // Asked once it answered this, and went from the one to the other.
    ghost answers: { Claim → Self → Self → Type 0 };

    /// Claims the waiting run of the least number, in one turn.
    fn ask(&mut self) -> Claim
        ensures answers { answers result self.old self.new };
}

impl<'a, W: Wait> Asks for WorkerPass<'a, W> {
    ghost answers = { Answers };

    fn ask(&mut self) -> Claim {
        self.claim()
    }
}

/// What passes answer that are asked one after the other.
#[derive(Drop)]
pub(crate) enum Asked {
    /// The pass at this place had this job.
    Job { at: usize, job: Job },
    /// None had one; whether each of them is over.
    Nothing { over: bool },
}

/// Asks the passes in their order, each in one turn, until one has a job.
pub(crate) fn ask_each<P: Asks>(passes: &mut [P]) -> Asked
    ensures asked { AskedEach P.answers passes.old passes.new result }
    ensures within { IsAt result (length passes.old) }
{
    let Some((first, others)) = passes.split_first_mut() else {
        return Asked::Nothing { over: true };
    };
    let over = match first.ask() {
        Claim::Job(job) => return Asked::Job { at: 0, job },
        Claim::Idle => false,
        Claim::Over => true,
    };
    let count = others.len();
    behind(ask_each(others), count, over)
}

/// Asks the passes from this place on, and then those before it.
pub(crate) fn ask_from<P: Asks>(first: usize, passes: &mut [P]) -> Asked
    requires within { first ≤ length passes.old }
    ensures asked { AskedFrom P.answers first passes.old passes.new result }
    ensures within { IsAt result (length passes.old) }
{
    let (before, behind) = passes.split_at_mut(first);
    match ask_each(behind) {
        Asked::Job { at, job } => Asked::Job {
            at: first + at,
            job,
        },
        Asked::Nothing { over } => with_both(ask_each(before), over),
    }
}

/// What all answer, where these were asked behind others that had no job.
fn with_both(asked: Asked, over: bool) -> Asked
    ensures { result ≡ with_over over asked }
{
    match asked {
        Asked::Job { at, job } => Asked::Job { at, job },
        Asked::Nothing { over: last } => Asked::Nothing { over: over && last },
    }
}

/// What passes answer together, of which the first had no job: what those behind it answered, `count` of them.
fn behind(others: Asked, count: usize, over: bool) -> Asked
    requires within { IsAt others count }
    requires few { count + 1 < 2 ^ 64 }
    ensures together { result ≡ behind_one over others }
    ensures within { IsAt result (count + 1) }
{
    match others {
        Asked::Job { at, job } => Asked::Job { at: at + 1, job },
        Asked::Nothing { over: others_over } => Asked::Nothing {
            over: over && others_over,
        },
    }
}
