//! Ticks that are encoded, with each run counted at its rate.
ghost use Rattle.std.specs.Prelude.{◌≡◌, ◌+◌, ◌-◌, ◌<◌, ◌≤◌, ◌∷◌, ℕ, false, length, map, All, IfOk, OnOk};
ghost use Rattle.g726_bits.specs.declared.Rate.{Rate as AnyRate};
ghost use Rattle.conference_spec.specs.declared.Entry.TheVariants.{Close, Collect};
ghost use Rattle.conference_spec.specs.Feed.{Feed, closes, collects, kept, ended};
ghost use Rattle.conference_spec.specs.Machine.{Core};
ghost use Rattle.tick_core.specs.Standing.{Stands};
ghost use Rattle.desk_run.specs.BookSide.{HandedAll, IsWhole, HasRun, waiting};
ghost use Rattle.desk_run.specs.Handing.{sent_from, IsSendable};
ghost use Rattle.session_account.specs.Encoding.{count_at, runs_in};
ghost use Rattle.session_report.specs.Encoding.{HasMade, HasCounted, waiting_at};

use edge_io::Memory;
use g726_bits::Rate;
use session_account::Runs;
use std::alloc::Global;
use talk_mix::Tick;
use tick_core::{Book, Claim, CloseFault, Packets};

/// Closes a tick, makes all its runs, each counted at its rate, and hands the tick out.
///
/// # Errors
///
/// `Memory` where there was none, or 64 bits can't count on.
pub(crate) fn encode(
    alloc: Global,
    book: &mut Book,
    runs: &mut Runs,
    tick: Tick,
) -> Result<Vec<Packets>, Memory>
    requires { (h : Feed) × (n : ℕ) × HandedAll book.old h n × (ended h ≡ false) × (closes h < 4320000) × (kept h < 18000)
        × (collects h ≡ closes h) × (n ≤ closes h) }
    ensures packets { IfOk result (λ ticks. (h : Feed) (n : ℕ) → HandedAll book.old h n →
        map (λ t. t.packets) ticks.items ≡ sent_from n (length ticks.items) (Close tick ∷ h)) }
    ensures stands { IfOk result (λ ticks. (h : Feed) (n : ℕ) → HandedAll book.old h n →
        (n + length ticks.items ≤ closes h + 1) × HandedAll book.new (Collect ∷ Close tick ∷ h) (n + length ticks.items)) }
    ensures sendable { IfOk result (λ ticks. All (λ t. IsSendable t.packets) ticks.items) }
    ensures counted { IfOk result (λ ticks. (h : Feed) (n : ℕ) → HandedAll book.old h n →
        (rate : AnyRate) → count_at rate runs.new ≡ count_at rate runs.old + runs_in rate tick h) }
{
    book.holds();
    match book.close(tick) {
        Ok(()) => {}
        Err(CloseFault::Memory) => return Err(Memory),
        Err(CloseFault::TicksOver | CloseFault::Long | CloseFault::Backlog) => unreachable!(),
    }
    run_all(book, runs)?;
    let Ok(packets) = book.collect() else {
        unreachable!()
    };
    let mut ticks = Vec::new(alloc);
    ticks.push(packets)?;
    Ok(ticks)
}

/// Makes all runs that wait, and counts each.
fn run_all(book: &mut Book, runs: &mut Runs) -> Result<(), Memory>
    requires { (c : Core) × Stands book.old c × IsWhole c }
    ensures made { OnOk result ((c : Core) → Stands book.old c → IsWhole c → HasRun 0 c book.new) }
    ensures counted { OnOk result ((c : Core) → Stands book.old c → IsWhole c →
        (rate : AnyRate) → count_at rate runs.new ≡ count_at rate runs.old + waiting_at rate c) }
{
    for _ in 0..book.waiting() {
        let rate = run_next(book);
        runs.note(rate)?;
    }
    Ok(())
}

/// Makes the next run that waits: it is claimed, done and published. Its rate is given.
fn run_next(book: &mut Book) -> Rate
    requires { (c : Core) × Stands book.old c × IsWhole c × (0 < waiting c) }
    ensures { (c : Core) → Stands book.old c → IsWhole c → HasMade result c book.new }
{
    let Claim::Job(job) = book.claim() else {
        unreachable!()
    };
    let rate = job.rate();
    let Ok(()) = book.publish(job.run()) else {
        unreachable!()
    };
    rate
}
