//! What a listener is owed of packets.

use conference_spec::JoinSpec;
use g726_codec::EncState;
use pack3551::Bundle;

/// What is kept of a listener until its last packet is handed out: present, or gone with ticks that aren't collected.
#[derive(Clone, Copy)]
pub struct Mail {
    pub spec: JoinSpec,
    /// How many ticks were closed before its join.
    pub from: u64,
    /// How many ticks were closed before its leave, if it has left.
    pub left: Option<u64>,
    /// How many packets it was sent.
    pub sent: u64,
    /// The payloads of collected ticks that no packet has carried yet: fewer than a packet carries.
    pub pending: Bundle,
    /// Its encoder's state after the last tick that was collected.
    pub state: EncState,
}
