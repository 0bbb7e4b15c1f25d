//! Why a capture can't be read any further.

/// What is wrong with a capture.
#[derive(Clone, Copy, Debug, PartialEq, Eq)]
pub enum DumpKind {
    /// The input doesn't begin with the line of an rtpdump capture.
    NotDump,
    /// The input ends inside the file head, or inside the head of a record.
    TornHead,
    /// A record's length is below that of its head.
    ShortLength,
    /// The input ends inside the octets that follow a record's head.
    TornRecord,
    /// There are more records than a capture may have.
    TooMany,
}

/// Why there is no next record.
#[derive(Clone, Copy, Debug, PartialEq, Eq)]
pub enum DumpFault {
    /// The capture is broken at this octet, counted from 0.
    Bad { at: u64, kind: DumpKind },
    /// A read failed.
    Read,
    /// There was no memory for a record.
    Memory,
}

/// Why the octets before the records couldn't be read.
#[derive(Clone, Copy, Debug, PartialEq, Eq)]
pub enum HeadEnd {
    /// The capture is broken at this octet, counted from 0.
    Bad { at: u64, kind: DumpKind },
    /// A read failed.
    Read,
}

impl From<HeadEnd> for DumpFault {
    ghost use Rattle.std.specs.Prelude.{◌≡◌};
    ghost use Rattle.rtp_dump.specs.Faults.{fault_of};

    ghost from_gives = { λ end fault. fault ≡ fault_of end };

    fn from(end: HeadEnd) -> DumpFault {
        match end {
            HeadEnd::Bad { at, kind } => DumpFault::Bad { at, kind },
            HeadEnd::Read => DumpFault::Read,
        }
    }
}
