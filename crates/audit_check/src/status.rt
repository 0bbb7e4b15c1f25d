//! How an audit ends.
ghost use Rattle.std.specs.Prelude.{◌≡◌};

use edge_io::{Memory, PutFault};
use program_edge::WordsFault;
use roster_text::{RosterError, RosterKind};
use rtp_dump::DumpKind;

/// The part of an answer that a first difference lies in.
#[derive(Clone, Copy, Debug, PartialEq, Eq)]
pub enum Part {
    /// The line and the file head, which are the first 39 octets.
    FileHead,
    /// The first 8 octets of a record.
    RecordHead,
    /// The next 12 octets of a record.
    RtpHead,
    /// The other octets of a record.
    Payload,
    /// The octets end before the answer does.
    Missing,
    /// The answer ends before the octets do.
    Extra,
}

/// A packet of an answer, counted from 0, the tick with which it is sent, and the member that it is sent to.
#[derive(Clone, Copy, Debug, PartialEq, Eq)]
pub struct Where {
    pub packet: u64,
    pub tick: u64,
    pub member: u32,
}

/// How an audit ended.
#[derive(Clone, Copy, Debug, PartialEq, Eq)]
pub enum AuditStatus {
    /// The octets are the answer.
    Yes,
    /// They aren't: they first differ from it at this octet, counted from 0, in this part, and in this packet, if in one.
    No {
        at: u64,
        part: Part,
        place: Option<Where>,
    },
    /// The words aren't a command line.
    Usage,
    /// This line of the roster is the first bad one, and why; lines are counted from 1.
    RosterFault {
        line: u32,
        kind: RosterKind,
    },
    /// The roster has more than 1,048,576 octets.
    RosterLong,
    /// The octets to be audited are more than 1,073,741,824.
    OutLong,
    /// The capture has this fault, at this octet, counted from 0.
    DumpFault {
        at: u64,
        kind: DumpKind,
    },
    /// The roster, the octets to be audited or the capture couldn't be read.
    ReadFault,
    /// The verdict couldn't be written.
    WriteFault,
    /// There was no memory.
    Memory,
}

impl From<Memory> for AuditStatus {
    ghost use Rattle.audit_check.specs.declared.status.AuditStatus.TheVariants.{Memory as no_memory};

    ghost from_gives = { λ _ status. status ≡ no_memory };

    fn from(_: Memory) -> AuditStatus {
        AuditStatus::Memory
    }
}

impl From<WordsFault> for AuditStatus {
    ghost use Rattle.audit_check.specs.Causes.{of_words};

    ghost from_gives = { λ fault status. status ≡ of_words fault };

    fn from(fault: WordsFault) -> AuditStatus {
        match fault {
            WordsFault::Usage => AuditStatus::Usage,
            WordsFault::Memory => AuditStatus::Memory,
        }
    }
}

impl From<RosterError> for AuditStatus {
    ghost use Rattle.audit_check.specs.Causes.{of_roster};

    ghost from_gives = { λ fault status. status ≡ of_roster fault };

    fn from(fault: RosterError) -> AuditStatus {
        match fault {
            RosterError::Bad { line, kind } => AuditStatus::RosterFault { line, kind },
            RosterError::Memory => AuditStatus::Memory,
        }
    }
}

impl From<PutFault> for AuditStatus {
    ghost use Rattle.audit_check.specs.Causes.{of_put};

    ghost from_gives = { λ fault status. status ≡ of_put fault };

    fn from(fault: PutFault) -> AuditStatus {
        match fault {
            PutFault::Failed => AuditStatus::WriteFault,
            PutFault::Memory => AuditStatus::Memory,
        }
    }
}
