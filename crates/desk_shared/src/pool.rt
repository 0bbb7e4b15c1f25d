//! The workers of a session, each on a thread of its own.
ghost use Rattle.std.specs.Prelude.{◌≡◌, ◌<◌, All, length};
ghost use Rattle.desk_shared.specs.Ended.{StayAt};

use enc_worker::{Gate, work};
use std::sync::Wait;
use std::thread::{Threads, for_each_mut};
use tick_core::Turns;

/// Lets all workers work until nothing but collects will come, with as many threads as workers.
pub fn run_pool<R: Threads + Wait + Sync, G: Gate, T: Turns + Send>(
    rt: &R,
    gate: &G,
    workers: &mut [T],
)
    requires some { 0 < length workers.old }
    requires ready { All T.ready workers.old }
    ensures homes { StayAt T.home workers.old workers.new }
{
    let threads = workers.len();
    for_each_mut(
        rt,
        workers,
        threads,
        &|_, worker: &mut T|
            requires { T.ready worker.old }
            ensures { T.home worker.new ≡ T.home worker.old }
        {
            work(rt, worker, gate);
        },
    );
}
