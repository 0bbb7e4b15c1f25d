//! Compound packets: one or more packets, the first of them a report.
ghost use Rattle.std.specs.Prelude.{◌≡◌, ◌≤◌, length};
ghost use Rattle.rtcp_pack.specs.Compound.{compound};

use crate::packet::packet_len;

/// Why octets are no compound packet (RFC 3550, section 6.1 and appendix A.2), in the order in which each packet is tested.
#[derive(Clone, Copy, Debug, PartialEq, Eq)]
pub enum RtcpFault {
    /// Fewer than the four octets of a head are left.
    Short,
    /// The version isn't 2.
    Version,
    /// The first packet is no sender report and no receiver report.
    First,
    /// Fewer octets are left than the packet's length says.
    Length,
    /// There is padding before the last packet, or a count of padding that is 0, no multiple of four, or over the octets
    /// behind the head.
    Padding,
    /// Too few octets follow the head for the packet's type and count.
    Body,
}

/// Counts the packets of a compound packet, of at most 65,535 octets, as a datagram carries it.
///
/// # Errors
///
/// The first fault of the first packet that has one.
pub fn check(bytes: &[u8]) -> Result<u32, RtcpFault>
    requires { length bytes.now ≤ 65535 }
    ensures { result ≡ compound bytes.now }
{
    let first_len = packet_len(bytes, true)?;
    let (_, mut rest) = bytes.split_at(first_len);
    let mut count: u32 = 1;
    while !rest.is_empty() {
        let len = packet_len(rest, false)?;
        rest = rest.split_at(len).1;
        count += 1;
    }
    Ok(count)
}
