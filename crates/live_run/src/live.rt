//! A whole live session.
ghost use Rattle.std.specs.Prelude.{◌≡◌, ◌<◌, [], true, length, IfOk, IfSome, OnOk, OnErr};
ghost use Rattle.roster_text.specs.Roster.{ticks_of};
ghost use Rattle.session_spec.specs.Talkers.{Events};
ghost use Rattle.udp_edge.specs.Known.{peer_at};
ghost use Rattle.live_run.specs.Standing.{StandsTallied};
ghost use Rattle.live_run.specs.Running.{Between, IfTold, no_controls};
ghost use Rattle.live_run.specs.Ended.{live_of, EndsSo, Runs, SendsFront, SamePort, PortStays};

use crate::ending::sum_up;
use crate::sums::Sums;
use crate::tallied::Tallied;
use crate::ticks::{Ears, run_tick};
use desk_run::{Conference, DeskSide};
use edge_io::Memory;
use live_link::{BUFFER_LEN, Controls};
use live_spec::LiveSummary;
use live_tally::Tallies;
use roster_desk::RosterDesk;
use roster_text::Roster;
use std::alloc::Global;
use tick_core::Book;
use udp_edge::{Clock, Link, Peers};

/// How a live session ended.
#[derive(Clone, Copy, PartialEq, Eq, Debug)]
pub enum LiveEnd {
    /// All its ticks were run, and all its packets and reports were tried.
    Done(LiveSummary),
    /// There was no memory, or there is more than 64 bits can count.
    Memory,
}

/// Runs the session of a roster over an open link, with the times of a clock: hears what comes, and sends each listener its
/// packets and reports at its peer. The clock's first answer is the session's start; tick `k` ends `20 * (k + 1)` milliseconds
/// after it.
pub fn run_live<L: Link, C: Clock>(
    alloc: Global,
    roster: Roster,
    peers: &Peers,
    link: &mut L,
    clock: &mut C,
) -> LiveEnd
    requires open { L.is_open link.old ≡ true }
    ensures told { IfSome (L.traffic link.old) (λ told. IfSome (C.answers clock.old) (λ answers.
        EndsSo (peer_at peers.now) roster.timed (ticks_of roster.end) (live_of told answers) (L.traffic link.old) (L.traffic link.new) result)) }
    ensures port { PortStays (L.traffic link.old) (L.traffic link.new) result }
    ensures opened { L.is_open link.new ≡ true }
{
    let ticks = roster.ticks();
    let mut desk = RosterDesk::new(alloc, roster);
    match run_session(alloc, ticks, peers, link, clock, &mut desk) {
        Ok(summary) => LiveEnd::Done(summary),
        Err(Memory) => LiveEnd::Memory,
    }
}

/// The same over a desk.
fn run_session<L: Link, K: Clock, D: DeskSide>(
    alloc: Global,
    ticks: u32,
    peers: &Peers,
    link: &mut L,
    clock: &mut K,
    desk: &mut D,
) -> Result<LiveSummary, Memory>
    requires open { L.is_open link.old ≡ true }
    requires short { ticks < 4320001 }
    requires begins { D.begins desk.old [] }
    ensures ran { IfOk result (λ summary. IfSome (L.traffic link.old) (λ told. IfSome (K.answers clock.old) (λ answers.
        Runs (peer_at peers.now) (D.plan desk.old) ticks (live_of told answers) (L.traffic link.old) (L.traffic link.new) summary))) }
    ensures failed { OnErr result (IfSome (L.traffic link.old) (λ told. IfSome (K.answers clock.old) (λ answers.
        SendsFront (peer_at peers.now) (D.plan desk.old) ticks (live_of told answers) (L.traffic link.old) (L.traffic link.new)))) }
    ensures port { OnOk result (SamePort (L.traffic link.old) (L.traffic link.new)) }
    ensures opened { L.is_open link.new ≡ true }
{
    let mut ears = Ears {
        start: clock.now(),
        buf: vec![in alloc; 0u8; BUFFER_LEN]?,
        controls: Controls::none(),
    };
    let mut tallied = Tallied {
        conference: Book::new(alloc),
        tallies: Tallies::new(alloc),
        closed: 0,
    };
    let mut sums = Sums {
        packets: 0,
        reports: 0,
        unsent: 0,
    };
    run_ticks(
        alloc,
        ticks,
        peers,
        link,
        clock,
        &mut ears,
        desk,
        &mut tallied,
        &mut sums,
    )?;
    sum_up(
        alloc,
        ticks,
        peers,
        link,
        ears.controls,
        desk,
        &mut tallied,
        &mut sums,
    )
}

/// Runs all ticks.
///
/// # Errors
///
/// `Memory` where there was no memory. Then a front of what the ticks send was tried.
fn run_ticks<L: Link, K: Clock, D: DeskSide, C: Conference>(
    alloc: Global,
    ticks: u32,
    peers: &Peers,
    link: &mut L,
    clock: &mut K,
    ears: &mut Ears,
    desk: &mut D,
    tallied: &mut Tallied<C>,
    sums: &mut Sums,
) -> Result<(), Memory>
    requires open { L.is_open link.old ≡ true }
    requires short { ticks < 4320001 }
    requires room { length ears.old.buf.items ≡ 65527 }
    requires quiet { ears.old.controls ≡ no_controls }
    requires begins { D.begins desk.old [] }
    requires stands { StandsTallied (λ x m. C.stands tallied.old.conference x m) tallied.old.tallies tallied.old.closed [] 0 }
    requires nothing { sums.old ≡ record { packets = 0; reports = 0; unsent = 0 } }
    ensures opened { L.is_open link.new ≡ true }
    ensures plan { D.plan desk.new ≡ D.plan desk.old }
    ensures ran { OnOk result ((h : Events) × Between (λ e. D.begins desk.new e)
        (λ f n. StandsTallied (λ x m. C.stands tallied.new.conference x m) tallied.new.tallies tallied.new.closed f n)
        (peer_at peers.now) (D.plan desk.old) ears.old.start (record { traffic = L.traffic link.old; answers = K.answers clock.old })
        (record { traffic = L.traffic link.new; answers = K.answers clock.new }) ears.new.controls sums.new ticks h) }
    ensures failed { OnErr result (IfTold (record { traffic = L.traffic link.old; answers = K.answers clock.old }) ears.old.start (λ live.
        SendsFront (peer_at peers.now) (D.plan desk.old) ticks live (L.traffic link.old) (L.traffic link.new))) }
{
    for tick in 0..ticks {
        run_tick(alloc, tick, peers, link, clock, ears, desk, tallied, sums)?;
    }
    Ok(())
}
