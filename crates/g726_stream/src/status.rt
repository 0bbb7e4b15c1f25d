//! How a call of the program ends.
ghost use Rattle.std.specs.Prelude.{◌≡◌};

use edge_io::{Failed, Memory, PutFault};
use program_edge::WordsFault;

/// How a call of the program ended.
#[derive(Clone, Copy, Debug, PartialEq, Eq)]
pub enum Status {
    /// The whole input was read, and what it gives was written.
    Done,
    /// The words aren't a command line.
    Usage,
    /// The input couldn't be read.
    ReadFault,
    /// The output couldn't be written.
    WriteFault,
    /// There was no memory, or there were more than 2^55 frames.
    Memory,
    /// The samples end in one octet, at this place, counted from 0. Those before it were encoded.
    OddOctet { at: u64 },
    /// The codes end inside the frame that begins at this octet, counted from 0. The frames before it were decoded.
    TornFrame { at: u64 },
}

impl From<Failed> for Status {
    ghost use Rattle.g726_stream.specs.declared.status.Status.TheVariants.{ReadFault};

    ghost from_gives = { λ _ status. status ≡ ReadFault };

    fn from(_: Failed) -> Status {
        Status::ReadFault
    }
}

impl From<Memory> for Status {
    ghost use Rattle.g726_stream.specs.declared.status.Status.TheVariants.{Memory as no_memory};

    ghost from_gives = { λ _ status. status ≡ no_memory };

    fn from(_: Memory) -> Status {
        Status::Memory
    }
}

impl From<PutFault> for Status {
    ghost use Rattle.g726_stream.specs.Causes.{of_put};

    ghost from_gives = { λ fault status. status ≡ of_put fault };

    fn from(fault: PutFault) -> Status {
        match fault {
            PutFault::Failed => Status::WriteFault,
            PutFault::Memory => Status::Memory,
        }
    }
}

impl From<WordsFault> for Status {
    ghost use Rattle.g726_stream.specs.Causes.{of_words};

    ghost from_gives = { λ fault status. status ≡ of_words fault };

    fn from(fault: WordsFault) -> Status {
        match fault {
            WordsFault::Usage => Status::Usage,
            WordsFault::Memory => Status::Memory,
        }
    }
}
