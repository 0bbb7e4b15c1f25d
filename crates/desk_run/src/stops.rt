//! What ends a session before its last tick.
ghost use Rattle.std.specs.Prelude.{◌≡◌};

use edge_io::{Memory, PutFault};
use rtp_dump::{DumpFault, DumpKind, HeadEnd};

/// What ended a session before its answer was whole.
#[derive(Clone, Copy, PartialEq, Eq, Debug)]
pub enum Stop {
    /// The capture is broken at this octet, counted from 0.
    Dump { at: u64, kind: DumpKind },
    /// A read failed.
    Read,
    /// A write failed.
    Write,
    /// There was no memory, or there are more packets than 64 bits can count.
    Memory,
}

impl From<Memory> for Stop {
    ghost use Rattle.desk_run.specs.declared.stops.Stop.TheVariants.{Memory as no_memory};

    ghost from_gives = { λ _ stop. stop ≡ no_memory };

    fn from(_: Memory) -> Stop {
        Stop::Memory
    }
}

impl From<HeadEnd> for Stop {
    ghost use Rattle.desk_run.specs.Stops.{of_head};

    ghost from_gives = { λ end stop. stop ≡ of_head end };

    fn from(end: HeadEnd) -> Stop {
        match end {
            HeadEnd::Bad { at, kind } => Stop::Dump { at, kind },
            HeadEnd::Read => Stop::Read,
        }
    }
}

impl From<DumpFault> for Stop {
    ghost use Rattle.desk_run.specs.Stops.{of_dump};

    ghost from_gives = { λ fault stop. stop ≡ of_dump fault };

    fn from(fault: DumpFault) -> Stop {
        match fault {
            DumpFault::Bad { at, kind } => Stop::Dump { at, kind },
            DumpFault::Read => Stop::Read,
            DumpFault::Memory => Stop::Memory,
        }
    }
}

impl From<PutFault> for Stop {
    ghost use Rattle.desk_run.specs.Stops.{of_put};

    ghost from_gives = { λ fault stop. stop ≡ of_put fault };

    fn from(fault: PutFault) -> Stop {
        match fault {
            PutFault::Failed => Stop::Write,
            PutFault::Memory => Stop::Memory,
        }
    }
}
