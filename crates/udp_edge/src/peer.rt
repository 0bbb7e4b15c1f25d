//! Who is at the other end of a link.

/// An address of IPv4 and a port of UDP.
#[derive(Clone, Copy, Debug, PartialEq, Eq)]
pub struct Peer {
    /// The address: A.B.C.D is ((A * 256 + B) * 256 + C) * 256 + D.
    pub addr: u32,
    pub port: u16,
}

/// A datagram that came.
#[derive(Clone, Copy, Debug, PartialEq, Eq)]
pub struct Got {
    /// How many of its octets stand at the front of the buffer.
    pub len: usize,
    /// Who sent it.
    pub from: Peer,
}
