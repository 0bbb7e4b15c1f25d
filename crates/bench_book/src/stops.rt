//! What is asked for, what is counted, and what stops a run.

use edge_io::Memory;
use tick_core::{CloseFault, Done, JoinFault, NotYet};

/// What the ticks have: encoder runs, and packets.
#[derive(Clone, Copy, PartialEq, Eq, Debug)]
pub struct Counts {
    pub runs: u64,
    pub packets: u64,
}

/// What is run.
#[derive(Clone, Copy, PartialEq, Eq, Debug)]
pub enum Kind {
    /// All listeners share one encoder run a tick: they joined at the same time, at one rate.
    Shared,
    /// Hardly two listeners share a run: of those at one rate, no two joined at the same tick.
    Apart,
    /// The encoder runs of `Apart` with no Book: each listener has an encoder of its own.
    Encode,
}

impl Kind {
    /// The kind of this name.
    pub fn of(name: &str) -> Option<Kind> {
        match name {
            "shared" => Some(Kind::Shared),
            "apart" => Some(Kind::Apart),
            "encode" => Some(Kind::Encode),
            _ => None,
        }
    }
}

/// Why a run stops before its end.
#[derive(Clone, Copy, PartialEq, Eq, Debug)]
pub enum Stop {
    /// There was no memory.
    Memory,
    /// The Book has refused a call for another reason.
    Refused,
}

impl From<Memory> for Stop {
    fn from(_: Memory) -> Stop {
        Stop::Memory
    }
}

impl From<JoinFault> for Stop {
    fn from(fault: JoinFault) -> Stop {
        match fault {
            JoinFault::Memory => Stop::Memory,
            JoinFault::Used | JoinFault::Full => Stop::Refused,
        }
    }
}

impl From<CloseFault> for Stop {
    fn from(fault: CloseFault) -> Stop {
        match fault {
            CloseFault::Memory => Stop::Memory,
            CloseFault::TicksOver | CloseFault::Long | CloseFault::Backlog => Stop::Refused,
        }
    }
}

impl From<NotYet> for Stop {
    fn from(_: NotYet) -> Stop {
        Stop::Refused
    }
}

impl From<Done> for Stop {
    fn from(_: Done) -> Stop {
        Stop::Refused
    }
}
