//! The packets of a session, written as a capture.

ghost use Rattle.std.specs.Prelude.{◌≡◌, ◌<◌, ◌≤◌, ◌+◌, ◌*◌, ◌++◌, ◌∷◌, [], length, OnOk, replicate, if◌then◌else◌};
ghost use Rattle.std.specs.List.{flat_map};
ghost use Rattle.rtp_head.specs.Rtp.{head_octets};
ghost use Rattle.rtp_dump.specs.Spelling.{record_octets};
ghost use Rattle.rtp_dump.specs.Writing.{output_head, written};
ghost use Rattle.demo_gen.specs.Turns.{head, copies, turns_in};
ghost use Rattle.demo_gen.specs.Draws.{after_draws, draws};
ghost use Rattle.demo_gen.specs.Members.{talks};
ghost use Rattle.demo_gen.specs.Capture.{capture, item, items_from};

use crate::draws::Generator;
use crate::turns::{MEMBERS, TICKS, Turn, talks};
use edge_io::{CalmSink, Memory};
use rtp_dump::DumpWriter;
use rtp_head::write;
use std::alloc::Global;

/// Octets of a head.
const HEAD_LEN: usize = 12;

/// Octets of a packet: a head, and 160 of speech.
const PACKET_LEN: usize = 172;

/// Writes the capture of the session of a number.
pub(crate) fn write_capture(alloc: Global, number: u32, sink: &mut CalmSink) -> Result<(), Memory>
    ensures { OnOk result (sink.new.octets ≡ sink.old.octets ++ capture number) }
{
    write_head(alloc, sink)?;
    let mut generator = Generator { number };
    for tick in 0..TICKS {
        write_tick(alloc, tick, &mut generator, sink)?;
    }
    Ok(())
}

/// Writes what the members send in a tick.
fn write_tick(
    alloc: Global,
    tick: u32,
    generator: &mut Generator,
    sink: &mut CalmSink,
) -> Result<(), Memory>
    requires { tick < TICKS }
    ensures drawn { OnOk result (generator.new.number ≡ after_draws generator.old.number (160 * length (turns_in MEMBERS tick))) }
    ensures written { OnOk result (sink.new.octets ≡ sink.old.octets
        ++ flat_map record_octets (items_from generator.old.number 0 (turns_in MEMBERS tick))) }
{
    for member in 1..MEMBERS + 1 {
        if talks(tick, member) {
            write_turn(alloc, Turn { tick, member }, generator, sink)?;
        }
    }
    Ok(())
}

/// Writes a member's packet, once or twice.
fn write_turn(
    alloc: Global,
    turn: Turn,
    generator: &mut Generator,
    sink: &mut CalmSink,
) -> Result<(), Memory>
    requires { (turn.tick < TICKS) × (turn.member ≤ MEMBERS) }
    ensures drawn { OnOk result (generator.new.number ≡ after_draws generator.old.number 160) }
    ensures written { OnOk result (sink.new.octets ≡ sink.old.octets
        ++ flat_map record_octets (replicate (copies turn) (item turn (draws generator.old.number 0 160)))) }
{
    let packet = packet_of(turn, generator);
    let offset = 20 * turn.tick;
    write_record(alloc, offset, &packet, sink)?;
    if turn.comes_twice() {
        write_record(alloc, offset, &packet, sink)?;
    }
    Ok(())
}

/// The packet that a member sends in its turn.
fn packet_of(turn: Turn, generator: &mut Generator) -> [u8; PACKET_LEN]
    requires { (turn.tick < TICKS) × (turn.member ≤ MEMBERS) }
    ensures drawn { generator.new.number ≡ after_draws generator.old.number 160 }
    ensures octets { result ≡ head_octets (head turn) ++ draws generator.old.number 0 160 }
{
    let mut head = [0; HEAD_LEN];
    write(&turn.head(), &mut head);
    let mut packet = [0; PACKET_LEN];
    packet[..HEAD_LEN].copy_from_slice(&head);
    generator.fill(&mut packet[HEAD_LEN..]);
    packet
}

/// Writes the line and the file head.
fn write_head(alloc: Global, sink: &mut CalmSink) -> Result<(), Memory>
    ensures { OnOk result (sink.new.octets ≡ sink.old.octets ++ output_head) }
{
    let mut writer = DumpWriter::new(sink);
    let wrote = writer.head(alloc);
    writer.into_sink();
    wrote.map_err(|_| Memory)
}

/// Writes a packet as a record.
fn write_record(
    alloc: Global,
    offset: u32,
    packet: &[u8; PACKET_LEN],
    sink: &mut CalmSink,
) -> Result<(), Memory>
    ensures { OnOk result (sink.new.octets ≡ sink.old.octets ++ record_octets (written offset packet.now)) }
{
    let mut writer = DumpWriter::new(sink);
    let wrote = writer.put(alloc, offset, packet);
    writer.into_sink();
    wrote.map_err(|_| Memory)
}
