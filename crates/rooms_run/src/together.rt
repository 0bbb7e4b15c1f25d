//! All rooms at once, beside one pool of workers.
ghost use Rattle.std.specs.Prelude.{◌≡◌, ◌<◌, length, All};
ghost use Rattle.rooms_run.specs.Seating.{EachRan};

use crate::room::Runs;
use desk_shared::run_pool;
use enc_worker::Gate;
use std::alloc::Global;
use std::sync::Wait;
use std::thread::{Threads, for_each_mut, join_mut};
use tick_core::Turns;

/// Runs all of these at once, each on a thread of its own.
fn run_each<R: Threads + Wait + Sync, S: Runs + Send>(rt: &R, alloc: Global, seats: &mut [S])
    requires some { 0 < length seats.old }
    requires ready { All S.ready seats.old }
    ensures ran { EachRan S.ran seats.old seats.new }
{
    let threads = seats.len();
    for_each_mut(
        rt,
        seats,
        threads,
        &|_, seat: &mut S|
            requires { S.ready seat.old }
            ensures { S.ran seat.old seat.new }
        {
            seat.run(alloc);
        },
    );
}

/// Runs all of these at once, each on a thread of its own, while the workers make their runs.
pub(crate) fn run_together<R: Threads + Wait + Sync, G: Gate, S: Runs + Send, T: Turns + Send>(
    rt: &R,
    alloc: Global,
    gate: &G,
    workers: &mut [T],
    seats: &mut [S],
)
    requires workers { (0 < length workers.old) × All T.ready workers.old }
    requires seats { (0 < length seats.old) × All S.ready seats.old }
    ensures ran { EachRan S.ran seats.old seats.new }
{
    join_mut(
        rt,
        &mut || -> ()
            requires { (0 < length workers.now) × All T.ready workers.now }
            ensures { length workers.exit.now ≡ length workers.entry.now }
        {
            run_pool(rt, gate, workers);
        },
        &mut || -> ()
            requires { (0 < length seats.now) × All S.ready seats.now }
            ensures { EachRan S.ran seats.entry.now seats.exit.now }
        {
            run_each(rt, alloc, seats);
        },
    );
}
