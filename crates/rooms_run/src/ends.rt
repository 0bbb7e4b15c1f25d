//! How a room ends.

use roster_text::RosterKind;
use rtp_dump::DumpKind;
use session_spec::Summary;

/// How a room ended. It is a function of its roster and its capture alone.
#[derive(Clone, Copy, Debug, PartialEq, Eq)]
pub enum RoomEnd {
    /// The whole session was run, and came to this.
    Done(Summary),
    /// This line of the roster is the first bad one, and why; lines are counted from 1.
    RosterBad { line: u32, kind: RosterKind },
    /// The roster has more than 1,048,576 octets.
    RosterLong,
    /// The capture has more than 67,108,864 octets.
    DumpLong,
    /// The session met this fault of its capture, at this octet, counted from 0.
    Dump { at: u64, kind: DumpKind },
}
