//! A session whose runs are made by workers, over a Book behind a lock.
ghost use Rattle.std.specs.Prelude.{◌≡◌, ◌<◌, ◌≤◌, ◌+◌, [], ℕ, true, IfOk, IfErr, IfSome, OnOk, OnErr, IsErrOf, All, length};
ghost use Rattle.edge_io.specs.Told.{Counts, Rose};
ghost use Rattle.conference_spec.specs.Feed.{Feed};
ghost use Rattle.desk_run.specs.BookSide.{StandsFor};
ghost use Rattle.desk_run.specs.Whole.{RunEnds, run_write_failed};
ghost use Rattle.desk_shared.specs.Ended.{HasEnded};
ghost use Rattle.desk_shared.specs.Shared.{AreHired, IsOver, WentAlong};

use crate::helper::{Help, Helper};
use crate::session::{Closing, run_beside};
use crate::waiting::Waiting;
use book_lock::{BookLock, Pass};
use book_seat::{DeskPass, WorkerPass};
use desk_run::{DeskSide, RunEnd, Stop, sum_up};
use edge_io::{Memory, Sink, Source};
use enc_worker::Gate;
use std::alloc::Global;
use std::mem;
use std::sync::Wait;
use std::thread::Threads;
use tick_core::{Book, DeskCalls};

impl<'a, 'b, W: Wait, H: Help> Closing for Waiting<'a, W, DeskPass<'b, W>, H> {
    ghost over = { λ c h n. IsOver c.desk.view.seen h n };

    fn end(&mut self) {
        self.desk.end();
    }
}

/// Runs a session of so many ticks over a capture, its runs made by so many workers, each on a thread of its own, and writes its
/// answer: what a run on one thread writes. The Book is one that nothing has happened to.
///
/// The desk goes on closing ticks while workers encode. While it waits for a tick it makes runs too, so the session also ends
/// where no thread can be had. The gate is called by whoever joins a listener, claims a run or has published one.
pub fn run_shared<R: Threads + Wait + Sync, S: Source, K: Sink, D: DeskSide, G: Gate>(
    rt: &R,
    alloc: Global,
    workers: u32,
    ticks: u32,
    desk: &mut D,
    book: &mut Book,
    dump: &mut S,
    out: &mut K,
    gate: &G,
) -> RunEnd
    requires few { (0 < workers) × (workers ≤ 16) }
    requires stands { D.begins desk.old [] × StandsFor book.old [] }
    requires short { ticks < 4320001 }
    ensures told { IfSome (S.rest dump.old) (λ bytes.
        RunEnds (record { plan = D.plan desk.old; ticks = ticks; bytes = bytes })
        (record { left = S.rest dump.new; old = K.held out.old; new = K.held out.new }) (λ f. WentAlong book.new f) result) }
    ensures read { result ≡ RunEnd.Read → Rose (S.faults dump.old) (S.faults dump.new) }
    ensures never_falls { S.faults dump.old ≤ S.faults dump.new }
    ensures counts { Counts (K.faults out.old) (run_write_failed result) (K.faults out.new) }
{
    let mine = mem::replace(book, Book::new(alloc));
    let Ok((lock, pass)) = BookLock::new(alloc, mine) else {
        return RunEnd::Memory;
    };
    let seat = DeskPass::new(rt, &lock, pass);
    let Ok((pass, end)) = run_seated(rt, alloc, workers, ticks, desk, seat, dump, out, gate) else {
        return RunEnd::Memory;
    };
    *book = lock.close(pass);
    match end {
        Ok(packets) => match sum_up(alloc, ticks, packets, desk, book, out) {
            Ok(summary) => RunEnd::Done(summary),
            Err(fault) => RunEnd::from(Stop::from(fault)),
        },
        Err(stop) => RunEnd::from(stop),
    }
}

/// The same with the desk's pass of the lock, which comes back.
///
/// # Errors
///
/// `Memory` where there was no memory for the workers' passes. Then nothing was read or written.
fn run_seated<'a, R: Threads + Wait + Sync, S: Source, K: Sink, D: DeskSide, G: Gate>(
    rt: &R,
    alloc: Global,
    count: u32,
    ticks: u32,
    desk: &mut D,
    mut seat: DeskPass<'a, R>,
    dump: &mut S,
    out: &mut K,
    gate: &G,
) -> Result<(Pass<Book>, Result<u64, Stop>), Memory>
    requires few { (0 < count) × (count ≤ 16) }
    requires stands { D.begins desk.old [] }
    requires fresh { (seat.view.seen ≡ []) × (seat.view.out ≡ 0) }
    requires short { ticks < 4320001 }
    ensures pass { IfOk result (λ r. (r.0.home ≡ seat.entry.home) × (r.0.view.desk ≡ true) × (r.0.view.out ≡ 0)) }
    ensures ended { IfOk result (λ r. HasEnded (record {
      plan = D.plan desk.old;
      ticks = ticks;
      bytes = S.rest dump.old;
      left = S.rest dump.new;
      old = K.held out.old;
      new = K.held out.new;
      reads = (S.faults dump.old, S.faults dump.new);
      writes = (K.faults out.old, K.faults out.new);
    })
        (λ h. D.begins desk.new h) (λ f. IsOver r.0.view.seen f ticks) r.1) }
    ensures untouched { OnErr result ((dump.new ≡ dump.old) × (out.new ≡ out.old)) }
{
    let mut workers = hire(alloc, &mut seat, count)?;
    let help = Helper {
        gate,
        turns: seat.worker(),
    };
    let mut conference = Waiting {
        rt,
        desk: seat,
        help,
    };
    let end = run_beside(
        rt,
        alloc,
        gate,
        ticks,
        desk,
        &mut conference,
        dump,
        out,
        workers.as_mut_slice(),
    );
    let Waiting {
        rt: _,
        desk: mut seat,
        help,
    } = conference;
    let Helper { gate: _, turns } = help;
    seat.take_in(turns);
    take_all(&mut seat, workers);
    Ok((seat.into_pass(), end))
}

/// So many workers' passes. It takes memory for their list.
///
/// # Errors
///
/// `Memory` where there was none.
fn hire<'a, W>(
    alloc: Global,
    seat: &mut DeskPass<'a, W>,
    count: u32,
) -> Result<Vec<WorkerPass<'a, W>>, Memory>
    requires few { count ≤ 16 }
    requires none { seat.old.view.out ≡ 0 }
    ensures hired { IfOk result (λ ws. AreHired count seat.new ws.items) }
    ensures home { seat.new.home ≡ seat.old.home }
    ensures seen { seat.new.view.seen ≡ seat.old.view.seen }
    ensures out { OnOk result (seat.new.view.out ≡ count) }
{
    let mut workers = Vec::new(alloc);
    for _ in 0..count {
        workers.push(seat.worker())?;
    }
    Ok(workers)
}

/// Takes all workers' passes back.
fn take_all<'a, W>(seat: &mut DeskPass<'a, W>, mut workers: Vec<WorkerPass<'a, W>>)
    requires hired { AreHired seat.old.view.out seat.old workers.items }
    ensures home { seat.new.home ≡ seat.old.home }
    ensures seen { seat.new.view.seen ≡ seat.old.view.seen }
    ensures none { seat.new.view.out ≡ 0 }
{
    while let Some(worker) = workers.pop() {
        seat.take_in(worker);
    }
}
