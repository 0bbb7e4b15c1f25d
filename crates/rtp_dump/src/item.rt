//! A record of a capture.

use edge_io::Octets;

/// The most octets that the first line of a capture has, its newline included.
pub const MAX_LINE_LEN: u64 = 1024;

/// The most records of a capture.
pub const MAX_RECORDS: u32 = 268_435_456;

/// The most octets that a record has behind its head.
pub const MAX_OCTETS: usize = 65_527;

/// One record: an RTP or RTCP packet, or the front of one.
#[derive(Debug, Drop)]
pub struct DumpItem {
    /// The packet's length in octets as it was on the wire, and 0 for RTCP.
    pub plen: u16,
    /// When the packet came, in milliseconds after the capture's start. Offsets need not rise.
    pub offset: u32,
    /// The octets that were kept, at most 65,527. Where `plen` is smaller, the packet is the first
    /// `plen` of them.
    pub octets: Octets,
}
