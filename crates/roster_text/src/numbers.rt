//! What a join says, by its numbers. Payload types may be any number yet.

use g726_bits::Rate;

/// What a member sends.
#[derive(Clone, Copy)]
pub(crate) enum Sends {
    Mu { ssrc: u32 },
    A { ssrc: u32 },
    G726 { rate: Rate, pt: u32, ssrc: u32 },
}

/// What a member gets. `ticks` are those that a packet carries, unless the word for them tells none.
#[derive(Clone, Copy)]
pub(crate) struct Gets {
    pub(crate) rate: Rate,
    pub(crate) pt: u32,
    pub(crate) ssrc: u32,
    pub(crate) seq: u16,
    pub(crate) stamp: u32,
    pub(crate) ticks: Option<u8>,
}
