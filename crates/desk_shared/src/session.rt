//! A session beside its workers: the desk on this thread, the workers on others.
ghost use Rattle.std.specs.Prelude.{◌≡◌, ◌<◌, ◌≤◌, ◌+◌, [], ℕ, All, length};
ghost use Rattle.edge_io.specs.Told.{Counts, Rose};
ghost use Rattle.conference_spec.specs.Feed.{Feed};
ghost use Rattle.desk_shared.specs.Ended.{Sides, HasEnded, StayAt};

use crate::pool::run_pool;
use desk_run::{Conference, DeskSide, Stop, run_session};
use edge_io::{Sink, Source};
use enc_worker::Gate;
use std::alloc::Global;
use std::sync::Wait;
use std::thread::{Threads, join_mut};
use tick_core::Turns;

/// A conference that can be ended whatever came before.
pub trait Closing: Conference {
    // The session's feed is this, so many of its ticks were handed out, and then the end came.
    ghost over: { Self → Feed → ℕ → Type 0 };

    /// Ends it: nothing but runs and collects comes after.
    fn end(&mut self)
        ensures over { (h : Feed) (n : ℕ) → Self.stands self.old h n → over self.new h n }
        ensures post { Self.post self.new ≡ Self.post self.old };
}

/// Runs a session and ends its conference, whatever came of it.
///
/// # Errors
///
/// What ended the session.
pub fn run_and_end<S: Source, K: Sink, D: DeskSide, C: Closing>(
    alloc: Global,
    ticks: u32,
    desk: &mut D,
    conference: &mut C,
    dump: &mut S,
    out: &mut K,
) -> Result<u64, Stop>
    requires stands { D.begins desk.old [] × C.stands conference.old [] 0 }
    requires short { ticks < 4320001 }
    ensures ended { HasEnded (record {
      plan = D.plan desk.old;
      ticks = ticks;
      bytes = S.rest dump.old;
      left = S.rest dump.new;
      old = K.held out.old;
      new = K.held out.new;
      reads = (S.faults dump.old, S.faults dump.new);
      writes = (K.faults out.old, K.faults out.new);
    })
        (λ h. D.begins desk.new h) (λ f. C.over conference.new f ticks) result }
    ensures post { C.post conference.new ≡ C.post conference.old }
{
    let end = run_session(alloc, ticks, desk, conference, dump, out);
    conference.end();
    end
}

/// The same, beside workers who make its runs.
///
/// # Errors
///
/// What ended the session.
pub(crate) fn run_beside<
    R: Threads + Wait + Sync,
    S: Source,
    K: Sink,
    G: Gate,
    D: DeskSide,
    C: Closing,
    T: Turns + Send,
>(
    rt: &R,
    alloc: Global,
    gate: &G,
    ticks: u32,
    desk: &mut D,
    conference: &mut C,
    dump: &mut S,
    out: &mut K,
    workers: &mut [T],
) -> Result<u64, Stop>
    requires stands { D.begins desk.old [] × C.stands conference.old [] 0 }
    requires short { ticks < 4320001 }
    requires some { 0 < length workers.old }
    requires ready { All T.ready workers.old }
    ensures homes { StayAt T.home workers.old workers.new }
    ensures ended { HasEnded (record {
      plan = D.plan desk.old;
      ticks = ticks;
      bytes = S.rest dump.old;
      left = S.rest dump.new;
      old = K.held out.old;
      new = K.held out.new;
      reads = (S.faults dump.old, S.faults dump.new);
      writes = (K.faults out.old, K.faults out.new);
    })
        (λ h. D.begins desk.new h) (λ f. C.over conference.new f ticks) result }
    ensures post { C.post conference.new ≡ C.post conference.old }
{
    let ((), end) = join_mut(
        rt,
        &mut || -> ()
            requires { (0 < length workers.now) × All T.ready workers.now }
            ensures { StayAt T.home workers.entry.now workers.exit.now }
        {
            run_pool(rt, gate, workers);
        },
        &mut || -> Result<u64, Stop>
            requires { D.begins desk.now [] × C.stands conference.now [] 0 × (ticks < 4320001) }
            ensures ended { HasEnded (record {
              plan = D.plan desk.entry.now;
              ticks = ticks;
              bytes = S.rest dump.entry.now;
              left = S.rest dump.exit.now;
              old = K.held out.entry.now;
              new = K.held out.exit.now;
              reads = (S.faults dump.entry.now, S.faults dump.exit.now);
              writes = (K.faults out.entry.now, K.faults out.exit.now);
            })
                (λ h. D.begins desk.exit.now h) (λ f. C.over conference.exit.now f ticks) result }
            ensures post { C.post conference.exit.now ≡ C.post conference.entry.now }
        { run_and_end(alloc, ticks, desk, conference, dump, out) },
    );
    end
}
