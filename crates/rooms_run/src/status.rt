//! How a call of the program ends.
ghost use Rattle.std.specs.Prelude.{◌≡◌};

use edge_io::{Memory, PutFault};
use program_edge::WordsFault;
use room_pool::ListError;

/// How a call of the program ended.
#[derive(Clone, Copy, Debug, PartialEq, Eq)]
pub enum RoomsStatus {
    /// Each room came to its end, and what it came to was written.
    Done,
    /// The words aren't a command line.
    Usage,
    /// This line of the list is the first bad one; lines are counted from 1.
    ListFault { line: u32 },
    /// The list has more than 65,536 octets.
    ListLong,
    /// The list, a roster or a capture couldn't be read.
    ReadFault,
    /// An output or a line couldn't be written.
    WriteFault,
    /// There was no memory.
    Memory,
}

impl From<Memory> for RoomsStatus {
    ghost use Rattle.rooms_run.specs.declared.status.RoomsStatus.TheVariants.{Memory as no_memory};

    ghost from_gives = { λ _ status. status ≡ no_memory };

    fn from(_: Memory) -> RoomsStatus {
        RoomsStatus::Memory
    }
}

impl From<WordsFault> for RoomsStatus {
    ghost use Rattle.rooms_run.specs.Causes.{of_words};

    ghost from_gives = { λ fault status. status ≡ of_words fault };

    fn from(fault: WordsFault) -> RoomsStatus {
        match fault {
            WordsFault::Usage => RoomsStatus::Usage,
            WordsFault::Memory => RoomsStatus::Memory,
        }
    }
}

impl From<ListError> for RoomsStatus {
    ghost use Rattle.rooms_run.specs.Causes.{of_list};

    ghost from_gives = { λ error status. status ≡ of_list error };

    fn from(error: ListError) -> RoomsStatus {
        match error {
            ListError::Bad { line } => RoomsStatus::ListFault { line },
            ListError::Memory => RoomsStatus::Memory,
        }
    }
}

impl From<PutFault> for RoomsStatus {
    ghost use Rattle.rooms_run.specs.Causes.{of_put};

    ghost from_gives = { λ fault status. status ≡ of_put fault };

    fn from(fault: PutFault) -> RoomsStatus {
        match fault {
            PutFault::Failed => RoomsStatus::WriteFault,
            PutFault::Memory => RoomsStatus::Memory,
        }
    }
}
