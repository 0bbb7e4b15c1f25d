//! The sessions of all rooms, beside one pool of workers.
ghost use Rattle.std.specs.Prelude.{◌≡◌, ◌<◌, ◌≤◌, IfOk, vec_len};
ghost use Rattle.std.specs.List.{AllZip};
ghost use Rattle.rooms_run.specs.Starting.{start_gives};
ghost use Rattle.rooms_run.specs.Outcomes.{Comes};

use crate::closing::{Outcome, close_all};
use crate::opening::{hire_all, new_locks, open_all};
use crate::seating::seat_all;
use crate::start::Start;
use crate::together::run_together;
use edge_io::Memory;
use enc_worker::Gate;
use std::alloc::Global;
use std::sync::Wait;
use std::thread::Threads;

/// Runs the rooms that begin so, all at once, beside so many workers that ask each of them for runs, and says what became of each.
///
/// Each room has a desk on a thread of its own, and a Book under a lock of its own, so what becomes of it is a function of what it
/// begins with alone.
///
/// # Errors
///
/// `Memory` where there was none.
pub(crate) fn run_all<R: Threads + Wait + Sync, G: Gate>(
    rt: &R,
    alloc: Global,
    workers: u32,
    starts: Vec<Start>,
    gate: &G,
) -> Result<Vec<Outcome>, Memory>
    requires few { (0 < workers) × (workers ≤ 16) }
    requires some { 0 < vec_len starts }
    ensures comes { IfOk result (λ outcomes. AllZip (λ start o. Comes (start_gives start) o) starts.items outcomes.items) }
{
    let (locks, passes) = new_locks(alloc, starts.len())?;
    let mut keyed = open_all(rt, alloc, locks.as_slice(), passes)?;
    let mut pool = hire_all(rt, alloc, keyed.as_mut_slice(), workers)?;
    let mut seats = seat_all(rt, alloc, gate, keyed, starts)?;
    run_together(rt, alloc, gate, pool.as_mut_slice(), seats.as_mut_slice());
    close_all(rt, alloc, seats)
}
