//! One packet of a compound: its head, its length, its padding and its body.
ghost use Rattle.std.specs.Prelude.{◌≡◌, ◌≤◌, ◌+◌, ◌/◌, ◌%◌, ◌==◌, ◌&&◌, not, IfOk, length, if◌then◌else◌};
ghost use Rattle.rtcp_pack.specs.Compound.{body_fits, is_padding_wrong, is_report as begins_compound, packet_at, padding_count as padding_count_of, word_len};

use crate::chunks::chunks_fit;
use crate::compound::RtcpFault;
use byteorder::{BigEndian, ByteOrder};

/// The one version of RTP and RTCP (RFC 3550, section 6.4.1).
pub(crate) const VERSION: u8 = 2;

/// SR, a sender report (RFC 3550, section 6.4.1).
pub(crate) const SENDER_REPORT: u8 = 200;

/// RR, a receiver report (RFC 3550, section 6.4.2).
const RECEIVER_REPORT: u8 = 201;

/// SDES, a source description (RFC 3550, section 6.5).
pub(crate) const SOURCE_DESCRIPTION: u8 = 202;

/// BYE, a goodbye (RFC 3550, section 6.6).
pub(crate) const GOODBYE: u8 = 203;

/// Octets of a head: version, padding, count, type and length.
const HEAD_LEN: usize = 4;

/// How many octets the packet at the front has.
///
/// # Errors
///
/// The first fault of that packet.
#[tactic(auto, unfolding(crate::specs::Compound::packet_at), using(crate::proofs::Masks::masks))]
pub(crate) fn packet_len(bytes: &[u8], is_first: bool) -> Result<usize, RtcpFault>
    ensures len { result ≡ packet_at is_first bytes.now }
    ensures within { IfOk result (λ len. (4 ≤ len) × (len ≤ length bytes.now)) }
{
    if bytes.len() < HEAD_LEN {
        return Err(RtcpFault::Short);
    }
    if bytes[0] >> 6 != VERSION {
        return Err(RtcpFault::Version);
    }
    if begins_wrong(is_first, bytes[1]) {
        return Err(RtcpFault::First);
    }
    let len = told_len(bytes);
    if bytes.len() < len {
        return Err(RtcpFault::Length);
    }
    let padding = padding_count(bytes, len)?;
    if !fits(bytes[1], bytes[0] & 0x1f, &bytes[HEAD_LEN..len - padding]) {
        return Err(RtcpFault::Body);
    }
    Ok(len)
}

/// A type that a compound packet may begin with.
fn is_report(packet_type: u8) -> bool
    ensures { result ≡ begins_compound packet_type }
{
    packet_type == SENDER_REPORT || packet_type == RECEIVER_REPORT
}

/// This is the first packet, and it is of a type that a compound packet may not begin with.
fn begins_wrong(is_first: bool, packet_type: u8) -> bool
    ensures { result ≡ (is_first && not (begins_compound packet_type)) }
{
    is_first && !is_report(packet_type)
}

/// How many octets the packet at the front says that it has.
fn told_len(bytes: &[u8]) -> usize
    requires { 4 ≤ length bytes.now }
    ensures { result ≡ word_len bytes.now }
{
    HEAD_LEN + 4 * usize::from(BigEndian::read_u16(&bytes[2..]))
}

/// The first octet says that there is padding.
#[tactic(auto, using(crate::proofs::Masks::masks))]
fn has_padding(first: u8) -> bool
    ensures { result ≡ (first / 32 % 2 == 1) }
{
    first >> 5 & 1 == 1
}

/// How many octets of padding stand at the end of the packet of this length at the front.
fn padding_count(bytes: &[u8], len: usize) -> Result<usize, RtcpFault>
    requires told { len ≡ word_len bytes.now }
    requires within { len ≤ length bytes.now }
    ensures count { result ≡ (if is_padding_wrong bytes.now then Err RtcpFault.Padding else Ok (padding_count_of bytes.now)) }
    ensures few { IfOk result (λ count. (count + 4 ≤ len) × (count % 4 ≡ 0)) }
{
    if !has_padding(bytes[0]) {
        return Ok(0);
    }
    let count = usize::from(bytes[len - 1]);
    if len != bytes.len() || count == 0 || count % 4 != 0 || len < HEAD_LEN + count {
        return Err(RtcpFault::Padding);
    }
    Ok(count)
}

/// A packet of this type and count has room in its body for what it counts.
fn fits(packet_type: u8, count: u8, body: &[u8]) -> bool
    requires { length body.now % 4 ≡ 0 }
    ensures { result ≡ body_fits packet_type count body.now }
{
    let blocks = usize::from(count);
    match packet_type {
        SENDER_REPORT => body.len() >= 24 + 24 * blocks,
        RECEIVER_REPORT => body.len() >= 4 + 24 * blocks,
        SOURCE_DESCRIPTION => chunks_fit(count, body),
        GOODBYE => body.len() >= 4 * blocks,
        _ => true,
    }
}
