//! Packets and reports as letters, each to its member's peer.
ghost use Rattle.std.specs.Prelude.{◌≡◌, ◌≤◌, ◌+◌, ◌++◌, true, ℕ, List, [], ◌∷◌, OnOk, OnErr};
ghost use Rattle.conference_spec.specs.declared.Packet.{Packet};
ghost use Rattle.conference_spec.specs.Coding.{Coder};
ghost use Rattle.conference_spec.specs.Codec.{g726};
ghost use Rattle.conference_spec.specs.Feed.{Feed};
ghost use Rattle.conference_spec.specs.Packets.{rest};
ghost use Rattle.desk_run.specs.Handing.{IsSendable};
ghost use Rattle.desk_run.specs.BookSide.{StandsFor, IsEven};
ghost use Rattle.udp_edge.specs.Known.{peer_at};
ghost use Rattle.live_spec.specs.Letters.{packet_letters, report_letters};
ghost use Rattle.live_tally.specs.Kept.{Keeps};
ghost use Rattle.live_link.specs.Posts.{above, Posts, PostsFront};

use crate::posts::post;
use conference_spec::Packet;
use desk_run::{PACKET_LEN, spell};
use edge_io::Memory;
use live_tally::Tallies;
use rtcp_pack::{Report, write};
use std::alloc::Global;
use tick_core::{Book, Packets};
use udp_edge::{Link, Peer, Peers};

/// The most octets of a report.
const REPORT_LEN: usize = 68;

/// Posts the packets of a tick, each to its member's peer, and counts each for its listener. What doesn't go is counted in
/// `unsent`.
///
/// # Errors
///
/// `Memory` where there was no memory. Then a front of the packets was tried, and the tallies are of no more use.
pub fn post_packets<L: Link>(
    alloc: Global,
    link: &mut L,
    peers: &Peers,
    packets: &Packets,
    tallies: &mut Tallies,
    unsent: &mut u64,
) -> Result<(), Memory>
    requires open { L.is_open link.old ≡ true }
    requires sendable { IsSendable packets.now.packets }
    ensures opened { L.is_open link.new ≡ true }
    ensures posted { OnOk result (Posts (L.traffic link.old) (L.traffic link.new) unsent.old unsent.new
        (packet_letters (peer_at peers.now) packets.now.packets)) }
    ensures counted { OnOk result ((coder : Coder) (h : Feed) (before : List Packet) → Keeps coder tallies.old h before →
        Keeps coder tallies.new h (before ++ packets.now.packets)) }
    ensures front { OnErr result (PostsFront (L.traffic link.old) (L.traffic link.new) (packet_letters (peer_at peers.now) packets.now.packets)) }
{
    for i in 0..packets.len() {
        let packet = packets.packet(i);
        post_packet(alloc, link, peers, &packet, unsent)?;
        tallies.count(&packet)?;
    }
    Ok(())
}

/// Posts what is left after the last tick, and counts it, as the packets of a tick.
///
/// # Errors
///
/// `Memory` where there was no memory. Then a front of the packets was tried, and the tallies are of no more use.
pub fn post_rest<L: Link>(
    alloc: Global,
    link: &mut L,
    peers: &Peers,
    book: &Book,
    tallies: &mut Tallies,
    unsent: &mut u64,
) -> Result<(), Memory>
    requires open { L.is_open link.old ≡ true }
    requires even { IsEven book.now }
    ensures opened { L.is_open link.new ≡ true }
    ensures posted { OnOk result ((f : Feed) → StandsFor book.now f → Posts (L.traffic link.old) (L.traffic link.new) unsent.old unsent.new
        (packet_letters (peer_at peers.now) (rest g726 f))) }
    ensures counted { OnOk result ((f : Feed) → StandsFor book.now f → (coder : Coder) (h : Feed) (before : List Packet) →
        Keeps coder tallies.old h before → Keeps coder tallies.new h (before ++ rest g726 f)) }
    ensures front { OnErr result ((f : Feed) → StandsFor book.now f →
        PostsFront (L.traffic link.old) (L.traffic link.new) (packet_letters (peer_at peers.now) (rest g726 f))) }
{
    for i in 0..book.rests() {
        let packet = book.rest(i);
        post_packet(alloc, link, peers, &packet, unsent)?;
        tallies.count(&packet)?;
    }
    Ok(())
}

/// Posts reports, each to its member's peer at the port above. What doesn't go is counted in `unsent`.
///
/// # Errors
///
/// `Memory` where there was no memory. Then a front of the reports was tried.
pub fn post_reports<L: Link>(
    alloc: Global,
    link: &mut L,
    peers: &Peers,
    reports: &[Report],
    unsent: &mut u64,
) -> Result<(), Memory>
    requires open { L.is_open link.old ≡ true }
    ensures opened { L.is_open link.new ≡ true }
    ensures posted { OnOk result (Posts (L.traffic link.old) (L.traffic link.new) unsent.old unsent.new (report_letters (peer_at peers.now) reports.now)) }
    ensures front { OnErr result (PostsFront (L.traffic link.old) (L.traffic link.new) (report_letters (peer_at peers.now) reports.now)) }
{
    for report in reports {
        post_report(alloc, link, peers, report, unsent)?;
    }
    Ok(())
}

/// Posts a packet to its member's peer, if it has one.
fn post_packet<L: Link>(
    alloc: Global,
    link: &mut L,
    peers: &Peers,
    packet: &Packet,
    unsent: &mut u64,
) -> Result<(), Memory>
    requires open { L.is_open link.old ≡ true }
    requires lawful { packet.now.head.pt ≤ 127 }
    ensures opened { L.is_open link.new ≡ true }
    ensures posted { OnOk result (Posts (L.traffic link.old) (L.traffic link.new) unsent.old unsent.new
        (packet_letters (peer_at peers.now) (packet.now ∷ []))) }
    ensures front { OnErr result (PostsFront (L.traffic link.old) (L.traffic link.new) (packet_letters (peer_at peers.now) (packet.now ∷ []))) }
{
    match peers.find(packet.member) {
        Some(peer) => {
            let mut octets = [0; PACKET_LEN];
            let len = spell(packet, &mut octets);
            post(alloc, link, peer, &octets[..len], unsent)
        }
        None => Ok(()),
    }
}

/// Posts a report to its member's peer at the port above, if it has one.
fn post_report<L: Link>(
    alloc: Global,
    link: &mut L,
    peers: &Peers,
    report: &Report,
    unsent: &mut u64,
) -> Result<(), Memory>
    requires open { L.is_open link.old ≡ true }
    ensures opened { L.is_open link.new ≡ true }
    ensures posted { OnOk result (Posts (L.traffic link.old) (L.traffic link.new) unsent.old unsent.new
        (report_letters (peer_at peers.now) (report.now ∷ []))) }
    ensures front { OnErr result (PostsFront (L.traffic link.old) (L.traffic link.new) (report_letters (peer_at peers.now) (report.now ∷ []))) }
{
    match peers.find(report.member) {
        Some(peer) => {
            let mut octets = [0; REPORT_LEN];
            let len = write(report, &mut octets);
            post(alloc, link, port_above(peer), &octets[..len], unsent)
        }
        None => Ok(()),
    }
}

/// The same peer at the port above.
fn port_above(peer: Peer) -> Peer
    ensures { result ≡ above peer }
{
    Peer {
        addr: peer.addr,
        port: peer.port.wrapping_add(1),
    }
}
