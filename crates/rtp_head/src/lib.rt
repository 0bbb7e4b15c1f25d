//! RTP heads: `parse` finds the payload of a packet, `write` makes the twelve octets in front of one.
//!
//! The head is that of RFC 3550, section 5.1. Contributing sources and extension are passed over, and
//! padding is cut off. Neither call takes memory. It rests on `byteorder` for numbers in network order.
//!
//! `parse` answers what `specs/Rtp.antt` says of the octets: a head and its payload's range, or the first
//! fault that fits. That this is the spelling of packets in `specs/Packet.antt` read back, in both
//! directions, is the contract of `parsed_is_spelled` and `spelled_is_parsed`. What `write` makes is parsed
//! to the same head and to whatever payload follows it.
#![tactic(auto)]

ghost use Rattle.std.specs.Prelude.{◌≡◌, ◌≤◌, ◌+◌, ◌++◌, ℕ, List, length, ◌*◌, ◌/◌, ◌%◌, ◌==◌, if◌then◌else◌};
ghost use Rattle.rtp_head.specs.Rtp.{Fits, head_octets, head_of as head_fields, payload_start as payload_start_of, padding_count as padding_count_of, is_extension_cut, is_padding_wrong, rtp, sources_end as sources_end_of};

mod laws;

use byteorder::{BigEndian, ByteOrder};
pub use laws::{parsed_is_spelled, spelled_is_parsed};

/// Octets before the contributing sources.
const FIXED_LEN: usize = 12;

/// The one version of RTP (RFC 3550, section 5.1).
const VERSION: u8 = 2;

/// What the head of a packet says (RFC 3550, section 5.1).
#[derive(Clone, Copy, Debug, PartialEq, Eq)]
pub struct Head {
    /// The marker bit: for speech, the first packet after a silence.
    pub marker: bool,
    /// The payload type, 0 to 127.
    pub pt: u8,
    /// The sequence number, which rises by one a packet, modulo 2^16.
    pub seq: u16,
    /// The timestamp of the first sample, in samples, modulo 2^32.
    pub stamp: u32,
    /// The SSRC, the sender's identifier.
    pub ssrc: u32,
}

/// A packet's head, and where its payload is: the octets from `from` up to `to`, without padding.
#[derive(Clone, Copy, Debug, PartialEq, Eq)]
pub struct Parsed {
    pub head: Head,
    pub from: usize,
    pub to: usize,
}

/// Why octets are no packet, in the order in which they are tested.
#[derive(Clone, Copy, Debug, PartialEq, Eq)]
pub enum HeadFault {
    /// There are fewer than twelve octets.
    Short,
    /// The version isn't 2.
    Version,
    /// The contributing sources go past the end.
    Csrcs,
    /// The extension goes past the end.
    Extension,
    /// The octet that counts the padding is missing, is 0, or counts more octets than there are.
    Padding,
}

/// Finds the head and the payload of a packet.
///
/// The contents of contributing sources and extension are passed over, and padding is cut off. The
/// payload may be empty.
pub fn parse(bytes: &[u8]) -> Result<Parsed, HeadFault>
    ensures { result ≡ rtp bytes.now }
{
    if bytes.len() < FIXED_LEN {
        return Err(HeadFault::Short);
    }
    if bytes[0] >> 6 != VERSION {
        return Err(HeadFault::Version);
    }
    let sources_end = sources_end(bytes[0]);
    if bytes.len() < sources_end {
        return Err(HeadFault::Csrcs);
    }
    let from = payload_start(bytes, sources_end)?;
    let padding = padding_count(bytes, from)?;
    Ok(Parsed {
        head: head_of(bytes),
        from,
        to: bytes.len() - padding,
    })
}

/// Writes the head of a packet without padding, extension and contributing sources. The payload
/// follows it.
pub fn write(head: &Head, out: &mut [u8; 12])
    requires { head.now.pt ≤ 127 }
    ensures octets { out.new ≡ head_octets head.now }
    ensures parsed { (payload : List ℕ) → rtp (out.new ++ payload) ≡ Ok (record { head = head.now; from = 12; to = 12 + length payload }) }
{
    *out = octets_of(*head);
}

/// The octets of a head.
fn octets_of(head: Head) -> [u8; 12]
    requires { head.pt ≤ 127 }
    ensures octets { result ≡ head_octets head }
    ensures fits { Fits head }
{
    let mut octets = [0; FIXED_LEN];
    octets[0] = VERSION << 6;
    octets[1] = if head.marker { 128 + head.pt } else { head.pt };
    BigEndian::write_u16(&mut octets[2..4], head.seq);
    BigEndian::write_u32(&mut octets[4..8], head.stamp);
    BigEndian::write_u32(&mut octets[8..], head.ssrc);
    octets
}

/// The fields of the twelve octets at the front.
#[tactic(auto, using(crate::proofs::Masks::masks))]
fn head_of(bytes: &[u8]) -> Head
    requires { 12 ≤ length bytes.now }
    ensures { result ≡ head_fields bytes.now }
{
    Head {
        marker: bytes[1] >> 7 == 1,
        pt: bytes[1] & 0x7f,
        seq: BigEndian::read_u16(&bytes[2..]),
        stamp: BigEndian::read_u32(&bytes[4..]),
        ssrc: BigEndian::read_u32(&bytes[8..]),
    }
}

/// Where the contributing sources end that the first octet counts.
#[tactic(auto, using(crate::proofs::Masks::masks))]
fn sources_end(first: u8) -> usize
    ensures { result ≡ 12 + 4 * (first % 16) }
{
    FIXED_LEN + 4 * usize::from(first & 0x0f)
}

/// The first octet says that there is an extension.
#[tactic(auto, using(crate::proofs::Masks::masks))]
fn has_extension(first: u8) -> bool
    ensures { result ≡ (first / 16 % 2 == 1) }
{
    first >> 4 & 1 == 1
}

/// The first octet says that there is padding.
#[tactic(auto, using(crate::proofs::Masks::masks))]
fn has_padding(first: u8) -> bool
    ensures { result ≡ (first / 32 % 2 == 1) }
{
    first >> 5 & 1 == 1
}

/// Where the payload begins: behind the extension, if there is one.
fn payload_start(bytes: &[u8], sources_end: usize) -> Result<usize, HeadFault>
    requires whole { 12 ≤ length bytes.now }
    requires sources { sources_end ≡ sources_end_of bytes.now }
    requires within { sources_end ≤ length bytes.now }
    ensures { result ≡ (if is_extension_cut bytes.now then Err HeadFault.Extension else Ok (payload_start_of bytes.now)) }
{
    if !has_extension(bytes[0]) {
        return Ok(sources_end);
    }
    if bytes.len() < sources_end + 4 {
        return Err(HeadFault::Extension);
    }
    let words = BigEndian::read_u16(&bytes[sources_end + 2..]);
    let extension_end = sources_end + 4 + 4 * usize::from(words);
    if bytes.len() < extension_end {
        return Err(HeadFault::Extension);
    }
    Ok(extension_end)
}

/// How many octets of padding stand at the end.
fn padding_count(bytes: &[u8], from: usize) -> Result<usize, HeadFault>
    requires whole { 12 ≤ length bytes.now }
    requires start { from ≡ payload_start_of bytes.now }
    requires within { from ≤ length bytes.now }
    ensures { result ≡ (if is_padding_wrong bytes.now then Err HeadFault.Padding else Ok (padding_count_of bytes.now)) }
{
    if !has_padding(bytes[0]) {
        return Ok(0);
    }
    let count = usize::from(bytes[bytes.len() - 1]);
    if from == bytes.len() || count == 0 || bytes.len() < from + count {
        return Err(HeadFault::Padding);
    }
    Ok(count)
}

#[cfg(test)]
mod tests;
