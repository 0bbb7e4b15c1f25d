//! Why a roster can't be read.

use std::alloc::AllocError;

/// What is wrong with a line. Of several faults a line has the first in the order of its tests: `AfterEnd`,
/// `Words`, `Number`, `Rate`, `PayType`, `Bundle`, and then those of its place among the lines before.
#[derive(Clone, Copy, Debug, PartialEq, Eq)]
pub enum RosterKind {
    /// The line has none of the five forms.
    Words,
    /// A number isn't 1 to 10 decimal digits, or is over its greatest.
    Number,
    /// The rate isn't 16, 24, 32 or 40.
    Rate,
    /// A payload type, of what a member sends or of what it gets, isn't 96 to 127.
    PayType,
    /// The number of ticks that a packet carries isn't 1, 2, 3 or 4.
    Bundle,
    /// The time is less than that of the command before.
    Back,
    /// The member that joins joined before, though it may have left.
    Used,
    /// The member that leaves isn't present.
    Absent,
    /// A present member talks, or listens, with the same SSRC.
    SsrcTaken,
    /// 1,024 members are present.
    Full,
    /// The text has no end line. The fault is at the line after its last.
    NoEnd,
    /// An end line stands before.
    AfterEnd,
    /// The end's time is over 86,400,000 ms.
    TicksOver,
}

/// Why there is no roster.
#[derive(Clone, Copy, Debug, PartialEq, Eq)]
pub enum RosterError {
    /// The first bad line, counted from 1 with skipped lines included, and what is wrong with it.
    Bad { line: u32, kind: RosterKind },
    /// There was no memory.
    Memory,
}

impl From<AllocError> for RosterError {
    ghost use Rattle.std.specs.Prelude.{◌≡◌};
    ghost use Rattle.roster_text.specs.declared.faults.RosterError.TheVariants.{Memory as no_memory};

    ghost from_gives = { λ _ error. error ≡ no_memory };

    fn from(_error: AllocError) -> RosterError {
        RosterError::Memory
    }
}
