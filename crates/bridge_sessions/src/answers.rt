//! Right answers, octet by octet.

use crate::captures::HEAD;
use std::alloc::{AllocError, Global};

/// A listener, by what its packets tell: their payload type and SSRC, the sequence number and timestamp of the first, and how
/// many ticks each carries but perhaps the last.
#[derive(Clone, Copy)]
pub(crate) struct Listener {
    pub(crate) pt: u8,
    pub(crate) ssrc: u8,
    pub(crate) first_seq: u16,
    pub(crate) first_stamp: u32,
    pub(crate) ticks: u8,
}

/// A packet that is sent at the end of a tick: the listener, how many it was sent before, and its payloads, one after the other.
/// What is left at a session's end goes out as if one more tick ended.
#[derive(Clone, Copy)]
pub(crate) struct Sent<'a> {
    pub(crate) tick: u16,
    pub(crate) to: Listener,
    pub(crate) number: u16,
    pub(crate) payload: &'a [u8],
}

/// A listener whose packets are counted from 0, and carry a tick each.
pub(crate) fn listener_with(pt: u8, ssrc: u8) -> Listener {
    Listener {
        pt,
        ssrc,
        first_seq: 0,
        first_stamp: 0,
        ticks: 1,
    }
}

/// The answer that has just these packets.
pub(crate) fn answer_of(alloc: Global, packets: &[Sent<'_>]) -> Result<Vec<u8>, AllocError> {
    let mut answer = Vec::from_slice(alloc, HEAD)?;
    for packet in packets {
        push_packet(&mut answer, packet)?;
    }
    Ok(answer)
}

/// The answer of silence: one packet a tick at 32 kbit/s, to the listener with SSRC 7.
pub(crate) fn silence(alloc: Global, ticks: u16) -> Result<Vec<u8>, AllocError> {
    let mut answer = Vec::from_slice(alloc, HEAD)?;
    for tick in 0..ticks {
        let packet = Sent {
            tick,
            to: listener_with(96, 7),
            number: tick,
            payload: &[0xff; 80],
        };
        push_packet(&mut answer, &packet)?;
    }
    Ok(answer)
}

/// Adds the record of a packet.
fn push_packet(answer: &mut Vec<u8>, packet: &Sent<'_>) -> Result<(), AllocError> {
    let to = packet.to;
    let number = packet.number;
    let first = if number == 0 { 0x80 } else { 0 };
    let seq = to.first_seq.wrapping_add(number);
    let stamp = to
        .first_stamp
        .wrapping_add(160 * u32::from(to.ticks) * u32::from(number));
    answer.extend_from_slice(&two_octets(packet.payload.len() + 20))?;
    answer.extend_from_slice(&two_octets(packet.payload.len() + 12))?;
    answer.extend_from_slice(&(20 * (u32::from(packet.tick) + 1)).to_be_bytes())?;
    answer.extend_from_slice(&[0x80, first | to.pt])?;
    answer.extend_from_slice(&seq.to_be_bytes())?;
    answer.extend_from_slice(&stamp.to_be_bytes())?;
    answer.extend_from_slice(&[0, 0, 0, to.ssrc])?;
    answer.extend_from_slice(packet.payload)
}

/// The last two octets of a number.
fn two_octets(number: usize) -> [u8; 2] {
    let [.., high, low] = number.to_be_bytes();
    [high, low]
}
