//! Ticks of a conference, one after another: each is closed, its runs are done, and its packets are collected.

ghost use Rattle.std.specs.Prelude.{◌≡◌, ℕ, ◌*◌, ◌≤◌, OnOk, IfOk};
ghost use Rattle.conference_spec.specs.Machine.{Core};
ghost use Rattle.tick_core.specs.Standing.{Stands, IsKnown};
ghost use Rattle.bench_book.specs.Ticks.{IsSettled, StandsSettled, GoesOn, KeepsFeed, crowd};

use crate::coders::{encode_alone, rate_of};
use crate::stops::{Counts, Kind, Stop};
use crate::voice::speech;
use g726_bits::Rate;
use std::alloc::Global;
use tick_core::{Book, Claim, JoinSpec};

/// After how many ticks the Book is cut.
const TICKS_KEPT: u64 = 9_000;

/// Lets this many listeners join, and counts the runs and packets of this many ticks after that.
pub fn measure(alloc: Global, listeners: u64, ticks: u64, kind: Kind) -> Result<Counts, Stop>
    requires listeners { listeners ≤ 1024 }
    requires ticks { ticks ≤ 80000 }
    ensures packets { IfOk result (λ c. c.packets ≡ ticks * listeners) }
{
    let mut book = Book::new(alloc);
    match kind {
        Kind::Shared => join_together(&mut book, listeners)?,
        Kind::Apart => join_apart(&mut book, listeners)?,
        Kind::Encode => return Ok(encode_alone(alloc, listeners, ticks)?),
    }
    run_ticks(&mut book, ticks)
}

/// Lets listeners join at the same time, all at one rate.
fn join_together(book: &mut Book, listeners: u64) -> Result<(), Stop>
    requires settled { StandsSettled book.old }
    requires listeners { listeners ≤ 1024 }
    ensures joined { OnOk result (GoesOn listeners 0 book.old book.new) }
{
    for i in 0..listeners {
        join(book, i as u32, rate_of(0))?;
    }
    Ok(())
}

/// Lets listeners join, four at a tick, one at each rate.
fn join_apart(book: &mut Book, listeners: u64) -> Result<(), Stop>
    requires settled { StandsSettled book.old }
    requires listeners { listeners ≤ 1024 }
    ensures joined { OnOk result ((k : ℕ) × GoesOn listeners k book.old book.new) }
{
    for i in 0..listeners {
        join(book, i as u32, rate_of(i))?;
        if i % 4 == 3 {
            run_tick(book)?;
        }
    }
    Ok(())
}

/// Lets a listener join.
fn join(book: &mut Book, member: u32, rate: Rate) -> Result<(), Stop>
    requires settled { StandsSettled book.old }
    ensures joined { OnOk result (GoesOn 1 0 book.old book.new) }
{
    book.join(JoinSpec {
        member,
        rate,
        pt: 96,
        ssrc: member,
        first_seq: 0,
        first_stamp: 0,
        ticks: 1,
    })?;
    Ok(())
}

/// Runs ticks, and counts their runs and packets.
fn run_ticks(book: &mut Book, ticks: u64) -> Result<Counts, Stop>
    requires settled { StandsSettled book.old }
    requires ticks { ticks ≤ 80000 }
    ensures ticks { OnOk result (GoesOn 0 ticks book.old book.new) }
    ensures packets { IfOk result (λ counts. (c : Core) → Stands book.old c → IsSettled c → counts.packets ≡ ticks * crowd c) }
{
    let before = book.issued();
    let mut packets = 0;
    for _ in 0..ticks {
        packets += run_tick(book)?;
        forget(book);
    }
    let runs = book.issued() - before;
    Ok(Counts { runs, packets })
}

/// Runs a tick: it is closed, its runs are done, and its packets, one for each listener, are collected.
fn run_tick(book: &mut Book) -> Result<u64, Stop>
    requires settled { StandsSettled book.old }
    ensures tick { OnOk result (GoesOn 0 1 book.old book.new) }
    ensures packets { IfOk result (λ n. (c : Core) → Stands book.old c → IsSettled c → n ≡ crowd c) }
    ensures few { IfOk result (λ n. n ≤ 1024) }
{
    book.holds();
    book.close(speech(book.closed()))?;
    run_waiting(book)?;
    let packets = book.collect()?;
    Ok(packets.len() as u64)
}

/// Cuts the Book where it has kept so many ticks.
fn forget(book: &mut Book)
    requires settled { StandsSettled book.old }
    ensures forgot { GoesOn 0 0 book.old book.new }
{
    if book.kept() < TICKS_KEPT {
        return;
    }
    book.cut();
}

/// Does the runs that wait.
fn run_waiting(book: &mut Book) -> Result<(), Stop>
    requires stands { IsKnown book.old }
    ensures runs { OnOk result (KeepsFeed book.old book.new) }
{
    for _ in 0..book.waiting() {
        run_next(book)?;
    }
    Ok(())
}

/// Does the next run that waits.
fn run_next(book: &mut Book) -> Result<(), Stop>
    requires stands { IsKnown book.old }
    ensures runs { OnOk result (KeepsFeed book.old book.new) }
{
    match book.claim() {
        Claim::Job(job) => book.publish(job.run())?,
        Claim::Idle | Claim::Over => return Err(Stop::Refused),
    }
    Ok(())
}
