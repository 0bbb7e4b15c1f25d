//! Why a call of the Book is refused.

ghost use Rattle.std.specs.Prelude.{◌≡◌};

use edge_io::Memory;
use thiserror::Error;

/// Why a listener can't join.
#[derive(Error, Debug, Drop, Clone, Copy, PartialEq, Eq)]
pub enum JoinFault {
    /// A listener of this number has joined before.
    #[error("used")]
    Used,
    /// 1,024 listeners are present.
    #[error("full")]
    Full,
    /// There was no memory.
    #[error("memory")]
    Memory,
}

/// Why a tick can't be closed.
#[derive(Error, Debug, Drop, Clone, Copy, PartialEq, Eq)]
pub enum CloseFault {
    /// 4,320,000 ticks were closed.
    #[error("ticks over")]
    TicksOver,
    /// 18,000 ticks were closed since the last cut.
    #[error("long")]
    Long,
    /// 64 closed ticks aren't collected.
    #[error("backlog")]
    Backlog,
    /// There was no memory.
    #[error("memory")]
    Memory,
}

/// No listener of this number is present.
#[derive(Error, Debug, Drop, Clone, Copy, PartialEq, Eq)]
#[error("absent")]
pub struct Absent;

/// The next tick isn't closed, or a listener of it has no payload yet.
#[derive(Error, Debug, Drop, Clone, Copy, PartialEq, Eq)]
#[error("not yet")]
pub struct NotYet;

impl From<Memory> for JoinFault {
    ghost use Rattle.tick_core.specs.declared.faults.JoinFault.TheVariants.{Memory as no_memory};

    ghost from_gives = { λ _ fault. fault ≡ no_memory };

    fn from(_: Memory) -> JoinFault {
        JoinFault::Memory
    }
}

impl From<Memory> for CloseFault {
    ghost use Rattle.tick_core.specs.declared.faults.CloseFault.TheVariants.{Memory as no_memory};

    ghost from_gives = { λ _ fault. fault ≡ no_memory };

    fn from(_: Memory) -> CloseFault {
        CloseFault::Memory
    }
}
