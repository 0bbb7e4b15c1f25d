//! What is left after the last tick.
ghost use Rattle.std.specs.Prelude.{◌≡◌, ◌≤◌, ℕ, true, List, Option, IfOk, OnErr};
ghost use Rattle.roster_text.specs.declared.commands.Timed.{Timed};
ghost use Rattle.session_spec.specs.Talkers.{Events};
ghost use Rattle.desk_run.specs.BookSide.{HandedAll, IsEven};
ghost use Rattle.udp_edge.specs.Known.{peer_at};
ghost use Rattle.live_run.specs.Standing.{StandsTallied};
ghost use Rattle.live_run.specs.Running.{Ends, Between, IfTold};
ghost use Rattle.live_run.specs.Ended.{Runs, SendsFront, SamePort};

use crate::sums::{Sums, counted};
use crate::tallied::Tallied;
use desk_run::DeskSide;
use edge_io::Memory;
use live_link::{Controls, post_reports, post_rest};
use live_spec::LiveSummary;
use std::alloc::Global;
use tick_core::Book;
use udp_edge::{Link, Peers};

/// Ends a session whose ticks were all run: what is left is sent, then the last reports, and the session is summed up.
///
/// # Errors
///
/// `Memory` where there was no memory. Then a front of what is left and of the reports was tried.
pub(crate) fn sum_up<L: Link, D: DeskSide>(
    alloc: Global,
    ticks: u32,
    peers: &Peers,
    link: &mut L,
    controls: Controls,
    desk: &D,
    tallied: &mut Tallied<Book>,
    sums: &mut Sums,
) -> Result<LiveSummary, Memory>
    requires open { L.is_open link.old ≡ true }
    requires short { ticks ≤ 4320000 }
    requires even { IsEven tallied.old.conference }
    ensures opened { L.is_open link.new ≡ true }
    ensures ran { IfOk result (λ summary. (plan : List Timed) (start : ℕ) (old : Ends) (answers : Option (List ℕ)) (h : Events) →
        Between (λ e. D.begins desk.now e) (λ f n. StandsTallied (HandedAll tallied.old.conference) tallied.old.tallies tallied.old.closed f n)
        (peer_at peers.now) plan start old (record { traffic = L.traffic link.old; answers = answers }) controls sums.old ticks h
        → IfTold old start (λ live. Runs (peer_at peers.now) plan ticks live old.traffic (L.traffic link.new) summary)
        × SamePort old.traffic (L.traffic link.new)) }
    ensures failed { OnErr result ((plan : List Timed) (start : ℕ) (old : Ends) (answers : Option (List ℕ)) (h : Events) →
        Between (λ e. D.begins desk.now e) (λ f n. StandsTallied (HandedAll tallied.old.conference) tallied.old.tallies tallied.old.closed f n)
        (peer_at peers.now) plan start old (record { traffic = L.traffic link.old; answers = answers }) controls sums.old ticks h
        → IfTold old start (λ live. SendsFront (peer_at peers.now) plan ticks live old.traffic (L.traffic link.new))) }
{
    let book = &tallied.conference;
    post_rest(
        alloc,
        link,
        peers,
        book,
        &mut tallied.tallies,
        &mut sums.unsent,
    )?;
    let reports = tallied.tallies.end_reports(alloc, u64::from(ticks))?;
    post_reports(alloc, link, peers, reports.as_slice(), &mut sums.unsent)?;
    Ok(LiveSummary {
        ticks: u64::from(ticks),
        runs: book.issued(),
        packets: counted(sums.packets, book.rests())?,
        refused: desk.refused().saturating_add(controls.refused),
        unsent: sums.unsent,
        reports: counted(sums.reports, reports.len())?,
        heard: controls.heard,
    })
}
