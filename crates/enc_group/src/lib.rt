//! Groups of listeners that share one encoder state: one state for all who have heard the same so far.
//!
//! It rests on g726_codec (the encoder's state), on talk_mix (what a listener hears of a tick), and on `slab`, which
//! gives each group its key.
//! It promises what each call makes of the map from keys to groups and of the listeners' join order: `split` divides a
//! group by the value of its listeners' mixes and gives each part a copy of the state, and `merge` makes one group of
//! two. Every call but `reserve` takes no memory.
#![tactic(auto)]

mod groups;
mod parts;
mod places;
mod seats;

use g726_bits::Rate;
use g726_codec::EncState;
pub use groups::Groups;
pub use parts::Parts;

/// What a group has beside its listeners: its rate, the tick that it encodes next, and its state, where it isn't lifted.
#[derive(Clone, Copy)]
pub struct Group {
    rate: Rate,
    tick: u64,
    state: Option<EncState>,
}

/// Where a listener sits: the key of its group.
#[derive(Clone, Copy)]
pub struct Seat {
    listener: u32,
    key: usize,
}

#[cfg(test)]
mod tests;
