//! One tick of a live session.
ghost use Rattle.std.specs.Prelude.{◌≡◌, ◌<◌, ◌≤◌, ◌+◌, ◌*◌, true, length, OnOk, OnErr};
ghost use Rattle.conference_spec.specs.Feed.{Feed, closes, kept};
ghost use Rattle.desk_run.specs.Handing.{IsSendable};
ghost use Rattle.session_spec.specs.Talkers.{Events};
ghost use Rattle.session_spec.specs.Events.{feed_of, after_cut, kept_before};
ghost use Rattle.udp_edge.specs.Known.{peer_at};
ghost use Rattle.live_run.specs.Standing.{StandsTallied};
ghost use Rattle.live_run.specs.Running.{Ends, Ready, Between, IfTold, Fails};
ghost use Rattle.live_run.specs.Sending.{SendsTick, FrontOfTick};

use crate::sums::{Sums, counted};
use crate::tallied::{Tallied, hand_out};
use desk_run::{Conference, DeskSide};
use edge_io::Memory;
use live_link::{Controls, listen, post_packets, post_reports};
use live_tally::Tallies;
use std::alloc::Global;
use tick_core::Packets;
use udp_edge::{Clock, Link, Peers};

/// After so many ticks a conference is cut.
const TICKS_A_CUT: u32 = 9000;

/// What a session listens with: its start by the clock, room for a datagram, and the packets of RTCP so far.
#[derive(Drop)]
pub(crate) struct Ears {
    pub(crate) start: u64,
    pub(crate) buf: Vec<u8>,
    pub(crate) controls: Controls,
}

/// Runs one tick: the cut where it begins with one, its commands, its time of listening, the frames, the close, its packets, and
/// the reports that are due after it.
///
/// # Errors
///
/// `Memory` where there was no memory. Then a front of what the tick sends was tried.
pub(crate) fn run_tick<L: Link, K: Clock, D: DeskSide, C: Conference>(
    alloc: Global,
    tick: u32,
    peers: &Peers,
    link: &mut L,
    clock: &mut K,
    ears: &mut Ears,
    desk: &mut D,
    tallied: &mut Tallied<C>,
    sums: &mut Sums,
) -> Result<(), Memory>
    requires open { L.is_open link.old ≡ true }
    requires early { tick < 4320000 }
    requires room { length ears.old.buf.items ≡ 65527 }
    requires few { ears.old.controls.heard + ears.old.controls.refused ≤ 65536 * tick }
    requires ready { (h : Events) × Ready (λ e. D.begins desk.old e)
        (λ f n. StandsTallied (λ x m. C.stands tallied.old.conference x m) tallied.old.tallies tallied.old.closed f n) tick h }
    ensures opened { L.is_open link.new ≡ true }
    ensures room { length ears.new.buf.items ≡ 65527 }
    ensures few { ears.new.controls.heard + ears.new.controls.refused ≤ 65536 * (tick + 1) }
    ensures start { ears.new.start ≡ ears.old.start }
    ensures plan { D.plan desk.new ≡ D.plan desk.old }
    ensures ran { OnOk result ((old : Ends) (h : Events) → Between (λ e. D.begins desk.old e)
        (λ f n. StandsTallied (λ x m. C.stands tallied.old.conference x m) tallied.old.tallies tallied.old.closed f n)
        (peer_at peers.now) (D.plan desk.old) ears.old.start old (record { traffic = L.traffic link.old; answers = K.answers clock.old })
        ears.old.controls sums.old tick h
        → (next : Events) × Between (λ e. D.begins desk.new e)
        (λ f n. StandsTallied (λ x m. C.stands tallied.new.conference x m) tallied.new.tallies tallied.new.closed f n)
        (peer_at peers.now) (D.plan desk.old) ears.old.start old (record { traffic = L.traffic link.new; answers = K.answers clock.new })
        ears.new.controls sums.new (tick + 1) next) }
    ensures failed { OnErr result ((old : Ends) (h : Events) → Between (λ e. D.begins desk.old e)
        (λ f n. StandsTallied (λ x m. C.stands tallied.old.conference x m) tallied.old.tallies tallied.old.closed f n)
        (peer_at peers.now) (D.plan desk.old) ears.old.start old (record { traffic = L.traffic link.old; answers = K.answers clock.old })
        ears.old.controls sums.old tick h
        → IfTold old ears.old.start (λ live. Fails (peer_at peers.now) (D.plan desk.old) old.traffic (L.traffic link.new) live tick)) }
{
    begin(tick, &mut tallied.conference);
    desk.commands(alloc, tick, tallied)?;
    listen(
        tick,
        ears.start,
        link,
        clock,
        desk,
        ears.buf.as_mut_slice(),
        &mut ears.controls,
    );
    let packets = hand_out(alloc, &mut tallied.conference, desk.frames())?;
    send(
        alloc,
        tick,
        peers,
        link,
        &packets,
        &mut tallied.tallies,
        sums,
    )?;
    tallied.closed += 1;
    Ok(())
}

/// Begins a tick: where it begins with a cut, the conference is cut.
fn begin<C: Conference>(tick: u32, conference: &mut C)
    requires { (h : Events) × C.stands conference.old (feed_of h) tick × (closes (feed_of h) ≡ tick) × (kept (feed_of h) ≡ kept_before tick) }
    ensures { (h : Events) → C.stands conference.old (feed_of h) tick → closes (feed_of h) ≡ tick →
        C.stands conference.new (feed_of (after_cut tick h)) tick }
{
    if tick > 0 && tick % TICKS_A_CUT == 0 {
        conference.cut();
    }
}

/// Sends the packets of a tick, and the reports that are due after them.
///
/// # Errors
///
/// `Memory` where there was no memory. Then a front of these was tried.
fn send<L: Link>(
    alloc: Global,
    tick: u32,
    peers: &Peers,
    link: &mut L,
    packets: &Packets,
    tallies: &mut Tallies,
    sums: &mut Sums,
) -> Result<(), Memory>
    requires open { L.is_open link.old ≡ true }
    requires early { tick < 4320000 }
    requires sendable { IsSendable packets.now.packets }
    ensures opened { L.is_open link.new ≡ true }
    ensures sent { OnOk result (SendsTick (peer_at peers.now) tick packets.now.packets tallies.old tallies.new
        (L.traffic link.old) (L.traffic link.new) sums.old sums.new) }
    ensures front { OnErr result (FrontOfTick (peer_at peers.now) tick packets.now.packets tallies.old (L.traffic link.old) (L.traffic link.new)) }
{
    post_packets(alloc, link, peers, packets, tallies, &mut sums.unsent)?;
    let reports = tallies.tick_reports(alloc, u64::from(tick))?;
    post_reports(alloc, link, peers, reports.as_slice(), &mut sums.unsent)?;
    tallies.close(u64::from(tick));
    sums.packets = counted(sums.packets, packets.len())?;
    sums.reports = counted(sums.reports, reports.len())?;
    Ok(())
}
