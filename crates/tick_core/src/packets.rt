//! The packets of one tick.

ghost use Rattle.std.specs.Prelude.{◌≡◌, ◌<◌, ◌==◌, length, Some, slice_get};

use conference_spec::Packet;
use std::marker::Model;

/// The packets of a tick, one for each listener, in the order of their joins.
///
/// Contracts see the tick, numbered by closes from 0, and the packets.
#[derive(Drop)]
pub struct Packets {
    tick: u64,
    packets: Vec<Packet>,
}

impl Model for Packets {
    ghost use Rattle.tick_core.specs.Held.{Sent};

    ghost Value = { Sent };

    ghost view = { λ p. record { tick = p.tick; packets = p.packets.items } };
}

impl Packets {
    /// The packets of this tick.
    pub(crate) fn of(tick: u64, packets: Vec<Packet>) -> Packets
        ensures { result ≡ record { tick = tick; packets = packets.items } }
    {
        Packets { tick, packets }
    }

    /// The tick, numbered by closes from 0.
    pub fn tick(&self) -> u64
        ensures { result ≡ self.now.tick }
    {
        self.tick
    }

    /// How many packets there are.
    pub fn len(&self) -> usize
        ensures { result ≡ length self.now.packets }
    {
        self.packets.len()
    }

    /// Whether there is none.
    pub fn is_empty(&self) -> bool
        ensures { result ≡ (length self.now.packets == 0) }
    {
        self.packets.is_empty()
    }

    /// The i-th packet, from 0.
    pub fn packet(&self, i: usize) -> Packet
        requires { i < length self.now.packets }
        ensures { slice_get self.now.packets i ≡ Some result }
    {
        self.packets[i]
    }

    /// The same, where it lies.
    pub fn packet_at(&self, i: usize) -> &Packet
        requires { i < length self.now.packets }
        ensures { slice_get self.now.packets i ≡ Some result.now }
    {
        &self.packets[i]
    }
}
