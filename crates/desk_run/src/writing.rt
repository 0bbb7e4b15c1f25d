//! Packets, written as records, tick after tick.
ghost use Rattle.std.specs.Prelude.{◌≡◌, ◌<◌, ◌≤◌, ◌*◌, ◌+◌, ℕ, List, Option, map, take, length, All, OnOk, OnErr};
ghost use Rattle.edge_io.specs.Answers.{put_failed};
ghost use Rattle.edge_io.specs.Told.{Counts, Grows, GrowsByFront};
ghost use Rattle.conference_spec.specs.Codec.{g726};
ghost use Rattle.conference_spec.specs.Feed.{Feed, closes};
ghost use Rattle.conference_spec.specs.Packets.{sent};
ghost use Rattle.session_spec.specs.Answer.{packet_octets, tick_text, ticks_text};
ghost use Rattle.desk_run.specs.Handing.{IsSendable, packet_text, sent_from};
ghost use Rattle.desk_run.specs.Ends.{HasWritten};
ghost use Rattle.desk_run.specs.declared.writing.TheConstants.{PACKET_LEN};

use crate::sides::Conference;
use crate::written::Written;
use conference_spec::Packet;
use edge_io::{Memory, PutFault, Sink};
use rtp_dump::DumpWriter;
use std::alloc::Global;
use tick_core::Packets;

/// The most octets of a packet: a head, and four payloads at 40 kbit/s.
pub const PACKET_LEN: usize = 412;

/// Puts a packet at the front of some octets, and says how long it is: its head, and then the octets of its payloads
/// (RFC 3550, section 5.1).
pub fn spell(packet: &Packet, octets: &mut [u8; PACKET_LEN]) -> usize
    requires { packet.now.head.pt ≤ 127 }
    ensures within { (0 < result) × (result ≤ PACKET_LEN) }
    ensures spelled { take result octets.new ≡ packet_octets packet.now }
{
    let mut head = [0; 12];
    rtp_head::write(&packet.head, &mut head);
    let payload = packet.payload.as_slice();
    let len = 12 + payload.len();
    octets[..12].copy_from_slice(&head);
    octets[12..len].copy_from_slice(payload);
    len
}

/// Writes a packet as a record at a tick's end.
pub(crate) fn write_packet<K: Sink>(
    alloc: Global,
    writer: &mut DumpWriter<K>,
    tick: u32,
    packet: &Packet,
) -> Result<(), PutFault>
    requires early { tick ≤ 4320000 }
    requires lawful { packet.now.head.pt ≤ 127 }
    ensures same_sink { writer.new.ghost_name ≡ writer.old.ghost_name }
    ensures whole { OnOk result (Grows (K.held writer.old.sink) (K.held writer.new.sink) (packet_text tick packet.now)) }
    ensures fault { OnErr result (GrowsByFront (K.held writer.old.sink) (K.held writer.new.sink) (packet_text tick packet.now)) }
    ensures counts { Counts (K.faults writer.old.sink) (put_failed result) (K.faults writer.new.sink) }
{
    let mut octets = [0; PACKET_LEN];
    let len = spell(packet, &mut octets);
    writer.put(alloc, 20 * (tick + 1), &octets[..len])
}

/// Writes the packets of a tick, each as a record at the tick's end.
fn write_packets<K: Sink>(
    alloc: Global,
    writer: &mut DumpWriter<K>,
    tick: u32,
    packets: &Packets,
) -> Result<(), PutFault>
    requires early { tick < 4320000 }
    requires sendable { IsSendable packets.now.packets }
    ensures same_sink { writer.new.ghost_name ≡ writer.old.ghost_name }
    ensures whole { OnOk result (Grows (K.held writer.old.sink) (K.held writer.new.sink) (tick_text tick packets.now.packets)) }
    ensures fault { OnErr result (GrowsByFront (K.held writer.old.sink) (K.held writer.new.sink) (tick_text tick packets.now.packets)) }
    ensures counts { Counts (K.faults writer.old.sink) (put_failed result) (K.faults writer.new.sink) }
{
    for i in 0..packets.len() {
        write_packet(alloc, writer, tick, packets.packet_at(i))?;
    }
    Ok(())
}

/// Writes the packets of the next tick. More of them than can be counted are want of memory.
pub(crate) fn write_tick<K: Sink>(
    alloc: Global,
    writer: &mut DumpWriter<K>,
    written: &mut Written,
    packets: &Packets,
) -> Result<(), PutFault>
    requires early { written.old.ticks < 4320000 }
    requires sendable { IsSendable packets.now.packets }
    ensures same_sink { writer.new.ghost_name ≡ writer.old.ghost_name }
    ensures one { OnOk result (written.new.ticks ≡ written.old.ticks + 1) }
    ensures whole { OnOk result ((start : Option (List ℕ)) (h : Feed) → packets.now.packets ≡ sent g726 written.old.ticks h →
        HasWritten start (K.held writer.old.sink) written.old h → HasWritten start (K.held writer.new.sink) written.new h) }
    ensures fault { OnErr result ((start : Option (List ℕ)) (h : Feed) → packets.now.packets ≡ sent g726 written.old.ticks h →
        HasWritten start (K.held writer.old.sink) written.old h →
        GrowsByFront start (K.held writer.new.sink) (ticks_text g726 (written.old.ticks + 1) h)) }
    ensures counts { Counts (K.faults writer.old.sink) (put_failed result) (K.faults writer.new.sink) }
{
    write_packets(alloc, writer, written.ticks(), packets)?;
    match written.add(packets.len()) {
        Ok(()) => Ok(()),
        Err(Memory) => Err(PutFault::Memory),
    }
}

/// Writes the packets of the next ticks.
pub(crate) fn write_ticks<K: Sink>(
    alloc: Global,
    writer: &mut DumpWriter<K>,
    written: &mut Written,
    ticks: &[Packets],
) -> Result<(), PutFault>
    requires early { written.old.ticks + length ticks.now ≤ 4320000 }
    requires sendable { All (λ t. IsSendable t.packets) ticks.now }
    ensures same_sink { writer.new.ghost_name ≡ writer.old.ghost_name }
    ensures all { OnOk result (written.new.ticks ≡ written.old.ticks + length ticks.now) }
    ensures whole { OnOk result ((start : Option (List ℕ)) (h : Feed) → map (λ t. t.packets) ticks.now ≡ sent_from written.old.ticks (length ticks.now) h →
        HasWritten start (K.held writer.old.sink) written.old h → HasWritten start (K.held writer.new.sink) written.new h) }
    ensures fault { OnErr result ((start : Option (List ℕ)) (h : Feed) → map (λ t. t.packets) ticks.now ≡ sent_from written.old.ticks (length ticks.now) h →
        HasWritten start (K.held writer.old.sink) written.old h →
        GrowsByFront start (K.held writer.new.sink) (ticks_text g726 (written.old.ticks + length ticks.now) h)) }
    ensures counts { Counts (K.faults writer.old.sink) (put_failed result) (K.faults writer.new.sink) }
{
    for packets in ticks {
        write_tick(alloc, writer, written, packets)?;
    }
    Ok(())
}

/// Takes the ticks that were closed and not handed out yet from a conference, and writes their packets.
pub(crate) fn write_rest<K: Sink, C: Conference>(
    alloc: Global,
    end: u32,
    conference: &mut C,
    writer: &mut DumpWriter<K>,
    written: &mut Written,
) -> Result<(), PutFault>
    requires stands { (h : Feed) × C.stands conference.old h written.old.ticks × (closes h ≡ end) }
    requires early { end ≤ 4320000 }
    requires behind { written.old.ticks ≤ end }
    ensures same_sink { writer.new.ghost_name ≡ writer.old.ghost_name }
    ensures all { OnOk result (written.new.ticks ≡ end) }
    ensures stands { OnOk result ((h : Feed) → C.stands conference.old h written.old.ticks → closes h ≡ end → C.stands conference.new h end) }
    ensures whole { OnOk result ((start : Option (List ℕ)) (h : Feed) → C.stands conference.old h written.old.ticks → closes h ≡ end →
        HasWritten start (K.held writer.old.sink) written.old h → HasWritten start (K.held writer.new.sink) written.new h) }
    ensures fault { OnErr result ((start : Option (List ℕ)) (h : Feed) → C.stands conference.old h written.old.ticks → closes h ≡ end →
        HasWritten start (K.held writer.old.sink) written.old h → GrowsByFront start (K.held writer.new.sink) (ticks_text g726 end h)) }
    ensures post { C.post conference.new ≡ C.post conference.old }
    ensures counts { Counts (K.faults writer.old.sink) (put_failed result) (K.faults writer.new.sink) }
{
    'ticks: while written.ticks() < end {
        let Some(packets) = conference.next() else {
            unreachable!()
        };
        write_tick(alloc, writer, written, &packets)?;
    }
    Ok(())
}
