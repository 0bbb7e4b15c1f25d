//! An open tick: closed, and not collected yet.

use conference_spec::JoinSpec;
use g726_codec::EncState;

/// A listener at a closed tick.
#[derive(Clone, Copy)]
pub struct Seat {
    pub spec: JoinSpec,
    /// How many ticks it had heard before this one.
    pub heard: u64,
    /// Its seat at the tick before, if it was present then.
    pub earlier: Option<usize>,
    /// Its run in the tick's table, once it has passed all its ticks before.
    pub run: Option<usize>,
}

/// Where a present listener's state is.
#[derive(Clone, Copy)]
pub enum Origin {
    /// It has passed all its ticks and is in this state.
    Known(EncState),
    /// It is what the run of this seat of the newest tick leaves.
    Earlier(usize),
}

/// A listener that is present, at the tick to be closed next.
#[derive(Clone, Copy)]
pub struct Rest {
    pub spec: JoinSpec,
    /// How many ticks it has heard.
    pub heard: u64,
    pub origin: Origin,
}

/// A run that waits: its number, its tick, and its place in the tick's table.
#[derive(Clone, Copy)]
pub struct Ticket {
    pub number: u64,
    pub tick: u64,
    pub at: usize,
}
