//! What comes to a link in memory, and what it was told to send.

use crate::peer::Peer;
use edge_io::Octets;

/// What one call of `recv` is to find.
#[derive(Debug, Drop)]
pub enum Turn {
    /// A datagram of these octets, from this peer.
    Datagram(Octets, Peer),
    /// Nothing that waits.
    Nothing,
    /// A call that fails.
    Fault,
}

/// A datagram that was to be sent.
#[derive(Debug, Drop)]
pub struct Tried {
    pub to: Peer,
    pub octets: Octets,
    /// Whether the call answered Ok.
    pub went: bool,
}
