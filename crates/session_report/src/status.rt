//! How a report ends.
ghost use Rattle.std.specs.Prelude.{◌≡◌};

use edge_io::{Memory, PutFault, TakeFault};
use program_edge::WordsFault;
use roster_text::{RosterError, RosterKind};
use rtp_dump::DumpKind;

/// How a report ended.
#[derive(Clone, Copy, Debug, PartialEq, Eq)]
pub enum ReportStatus {
    /// The whole session was read, and its report was written.
    Done,
    /// The words aren't a command line.
    Usage,
    /// This line of the roster is the first bad one, and why; lines are counted from 1.
    RosterFault { line: u32, kind: RosterKind },
    /// The roster has more than 1,048,576 octets.
    RosterLong,
    /// The capture has this fault, at this octet, counted from 0.
    DumpFault { at: u64, kind: DumpKind },
    /// The roster or the capture couldn't be read.
    ReadFault,
    /// The report couldn't be written.
    WriteFault,
    /// There was no memory, or 64 bits can't count what is to be counted.
    Memory,
}

impl From<Memory> for ReportStatus {
    ghost use Rattle.session_report.specs.declared.status.ReportStatus.TheVariants.{Memory as no_memory};

    ghost from_gives = { λ _ status. status ≡ no_memory };

    fn from(_: Memory) -> ReportStatus {
        ReportStatus::Memory
    }
}

impl From<WordsFault> for ReportStatus {
    ghost use Rattle.session_report.specs.Causes.{of_words};

    ghost from_gives = { λ fault status. status ≡ of_words fault };

    fn from(fault: WordsFault) -> ReportStatus {
        match fault {
            WordsFault::Usage => ReportStatus::Usage,
            WordsFault::Memory => ReportStatus::Memory,
        }
    }
}

impl From<TakeFault> for ReportStatus {
    ghost use Rattle.session_report.specs.Causes.{of_take};

    ghost from_gives = { λ fault status. status ≡ of_take fault };

    fn from(fault: TakeFault) -> ReportStatus {
        match fault {
            TakeFault::Failed => ReportStatus::ReadFault,
            TakeFault::TooLong => ReportStatus::RosterLong,
            TakeFault::Memory => ReportStatus::Memory,
        }
    }
}

impl From<RosterError> for ReportStatus {
    ghost use Rattle.session_report.specs.Causes.{of_roster};

    ghost from_gives = { λ fault status. status ≡ of_roster fault };

    fn from(fault: RosterError) -> ReportStatus {
        match fault {
            RosterError::Bad { line, kind } => ReportStatus::RosterFault { line, kind },
            RosterError::Memory => ReportStatus::Memory,
        }
    }
}

impl From<PutFault> for ReportStatus {
    ghost use Rattle.session_report.specs.Causes.{of_put};

    ghost from_gives = { λ fault status. status ≡ of_put fault };

    fn from(fault: PutFault) -> ReportStatus {
        match fault {
            PutFault::Failed => ReportStatus::WriteFault,
            PutFault::Memory => ReportStatus::Memory,
        }
    }
}
