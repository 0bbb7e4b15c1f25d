//! A packet of an answer, spelled as its record.
ghost use Rattle.std.specs.Prelude.{◌≡◌, ◌<◌, ◌≤◌, ◌+◌, ◌++◌, length, take};
ghost use Rattle.rtp_dump.specs.Spelling.{record_octets};
ghost use Rattle.rtp_dump.specs.Writing.{written};
ghost use Rattle.session_spec.specs.Answer.{packet_octets};
ghost use Rattle.desk_run.specs.Handing.{packet_text};
ghost use Rattle.audit_check.specs.declared.spelling.TheConstants.{PACKET_LEN, RECORD_LEN};

use byteorder::{BigEndian, ByteOrder};
use conference_spec::Packet;

/// The most octets of a packet: a head, and four payloads at 40 kbit/s.
const PACKET_LEN: usize = 412;

/// The most octets of a record: a head of its own, and a packet.
pub(crate) const RECORD_LEN: usize = 420;

/// Puts the record of a packet that is sent with a tick at the front of some octets, and says how long it is.
pub(crate) fn spell_record(tick: u32, packet: &Packet, text: &mut [u8; RECORD_LEN]) -> usize
    requires early { tick ≤ 4320000 }
    requires lawful { packet.now.head.pt ≤ 127 }
    ensures within { (20 ≤ result) × (result ≤ RECORD_LEN) }
    ensures spelled { take result text.new ≡ packet_text tick packet.now }
{
    let mut octets = [0; PACKET_LEN];
    let len = spell(packet, &mut octets);
    let packet = &octets[..len];
    let head = head_of(20 * (tick + 1), packet);
    join(text, &head, packet)
}

/// Puts a packet at the front of some octets, and says how long it is.
fn spell(packet: &Packet, octets: &mut [u8; PACKET_LEN]) -> usize
    requires { packet.now.head.pt ≤ 127 }
    ensures within { (12 ≤ result) × (result ≤ PACKET_LEN) }
    ensures spelled { take result octets.new ≡ packet_octets packet.now }
{
    let mut head = [0; 12];
    rtp_head::write(&packet.head, &mut head);
    let payload = packet.payload.as_slice();
    let len = 12 + payload.len();
    octets[..12].copy_from_slice(&head);
    octets[12..len].copy_from_slice(payload);
    len
}

/// The head of a record with these octets, which are a whole packet: its length, the packet's, and its offset.
fn head_of(offset: u32, octets: &[u8]) -> [u8; 8]
    requires { length octets.now ≤ PACKET_LEN }
    ensures { result ++ octets.now ≡ record_octets (written offset octets.now) }
{
    let len = octets.len() as u16;
    let mut head = [0; 8];
    BigEndian::write_u16(&mut head[..2], len + 8);
    BigEndian::write_u16(&mut head[2..4], len);
    BigEndian::write_u32(&mut head[4..], offset);
    head
}

/// Puts a head and octets together at the front of a record, and says how long they are.
fn join(text: &mut [u8; RECORD_LEN], head: &[u8; 8], octets: &[u8]) -> usize
    requires { length octets.now ≤ PACKET_LEN }
    ensures len { result ≡ length octets.now + 8 }
    ensures joined { take result text.new ≡ head.now ++ octets.now }
{
    let len = 8 + octets.len();
    text[..8].copy_from_slice(head);
    text[8..len].copy_from_slice(octets);
    len
}
