//! How a call of the program ends.
ghost use Rattle.std.specs.Prelude.{◌≡◌};

use edge_io::{Memory, PutFault, TakeFault};
use program_edge::WordsFault;
use roster_text::{RosterError, RosterKind};
use rtp_dump::DumpKind;

/// How a call of the program ended.
#[derive(Clone, Copy, Debug, PartialEq, Eq)]
pub enum Status {
    /// The whole session was read, and its packets and the summary were written.
    Done,
    /// The words aren't a command line.
    Usage,
    /// This line of the roster is the first bad one, and why; lines are counted from 1.
    RosterFault { line: u32, kind: RosterKind },
    /// The roster has more than 1,048,576 octets.
    RosterLong,
    /// The capture has this fault, at this octet, counted from 0.
    DumpFault { at: u64, kind: DumpKind },
    /// The roster or the capture couldn't be read.
    ReadFault,
    /// The output or the summary couldn't be written.
    WriteFault,
    /// There was no memory.
    Memory,
}

impl From<Memory> for Status {
    ghost use Rattle.bridge_calls.specs.declared.status.Status.TheVariants.{Memory as no_memory};

    ghost from_gives = { λ _ status. status ≡ no_memory };

    fn from(_: Memory) -> Status {
        Status::Memory
    }
}

impl From<WordsFault> for Status {
    ghost use Rattle.bridge_calls.specs.Causes.{of_words};

    ghost from_gives = { λ fault status. status ≡ of_words fault };

    fn from(fault: WordsFault) -> Status {
        match fault {
            WordsFault::Usage => Status::Usage,
            WordsFault::Memory => Status::Memory,
        }
    }
}

impl From<TakeFault> for Status {
    ghost use Rattle.bridge_calls.specs.Causes.{of_take};

    ghost from_gives = { λ fault status. status ≡ of_take fault };

    fn from(fault: TakeFault) -> Status {
        match fault {
            TakeFault::Failed => Status::ReadFault,
            TakeFault::TooLong => Status::RosterLong,
            TakeFault::Memory => Status::Memory,
        }
    }
}

impl From<RosterError> for Status {
    ghost use Rattle.bridge_calls.specs.Causes.{of_roster};

    ghost from_gives = { λ fault status. status ≡ of_roster fault };

    fn from(fault: RosterError) -> Status {
        match fault {
            RosterError::Bad { line, kind } => Status::RosterFault { line, kind },
            RosterError::Memory => Status::Memory,
        }
    }
}

impl From<PutFault> for Status {
    ghost use Rattle.bridge_calls.specs.Causes.{of_put};

    ghost from_gives = { λ fault status. status ≡ of_put fault };

    fn from(fault: PutFault) -> Status {
        match fault {
            PutFault::Failed => Status::WriteFault,
            PutFault::Memory => Status::Memory,
        }
    }
}
