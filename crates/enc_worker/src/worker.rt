//! The loop of a worker.

ghost use Rattle.std.specs.Prelude.{◌≡◌, ◌<◌, ◌+◌, ◌^◌, ℕ, if◌then◌else◌};

use crate::gate::{Gate, Point};
use crossbeam_utils::Backoff;
use std::sync::Wait;
use std::thread;
use tick_core::{Claim, Job, Turns};

/// How often a worker for whom nothing came for long gives the processor away before its next claim.
const LONG_REST: u32 = 32;

/// Claims jobs, runs them and publishes their results until the end has come, and says how many results were taken.
///
/// The gate is called after each claim and after each publication. Where no job waits, the next claim comes a while later, and
/// other threads have the processor for the longer the longer none waited. A result that comes back is dropped: its tick has it
/// already.
pub fn work<T: Turns, G: Gate, W: Wait>(rt: &W, turns: &mut T, gate: &G) -> u64
    requires ready { T.ready turns.old }
    ensures ready { T.ready turns.new }
    ensures over { T.over turns.new }
    ensures taken { (n : ℕ) → T.taken turns.old n → T.taken turns.new (n + result) }
    ensures home { T.home turns.new ≡ T.home turns.old }
{
    let mut published = 0;
    let backoff = Backoff::new();
    for _ in rt.forever() {
        match turns.claim() {
            Claim::Job(job) => {
                published = counted(rt, published, finish(turns, gate, job));
                backoff.reset();
            }
            Claim::Idle => rest(&backoff),
            Claim::Over => return published,
        }
    }
    unreachable!()
}

/// Waits a while: for microseconds at first, and then by giving the processor to other threads again and again.
fn rest(backoff: &Backoff) {
    let times = if backoff.is_completed() { LONG_REST } else { 1 };
    for _ in 0..times {
        backoff.snooze();
    }
}

/// Runs a job and publishes its result, and says whether it was taken.
fn finish<T: Turns, G: Gate>(turns: &mut T, gate: &G, job: Job) -> bool
    requires ready { T.ready turns.old }
    ensures ready { T.ready turns.new }
    ensures taken { (n : ℕ) → T.taken turns.old n → T.taken turns.new (n + (if result then 1 else 0)) }
    ensures home { T.home turns.new ≡ T.home turns.old }
{
    let number = job.number();
    gate.at(Point::Claimed(number));
    let answer = turns.publish(job.run());
    gate.at(Point::Published(number));
    answer.is_ok()
}

/// One more, where a result was taken. Where all 2^64 - 1 were, it waits for ever.
fn counted<W: Wait>(rt: &W, count: u64, taken: bool) -> u64
    ensures { result ≡ count + (if taken then 1 else 0) }
{
    if !taken {
        return count;
    }
    for _ in rt.forever() {
        if count < u64::MAX {
            return count + 1;
        }
        thread::yield_now();
    }
    unreachable!()
}
