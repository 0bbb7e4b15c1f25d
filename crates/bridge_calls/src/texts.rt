//! The lines that are written to the error stream. They are made in place, without memory.
ghost use Rattle.std.specs.Prelude.{◌≡◌};
ghost use Rattle.bridge_calls.specs.Texts.{line_of};

use crate::status::Status;
use program_edge::{Line, line};
use session_edge::{
    dump_fault_line, memory_line, read_failed_line, roster_fault_line, roster_long_line,
    write_failed_line,
};

/// The line of a status other than Done.
pub fn fault_line(status: Status) -> Line
    ensures { result.bytes ≡ line_of status }
{
    match status {
        Status::Done => Line::new(),
        Status::Usage => line(
            "usage: bridge alone ROSTER or bridge shared N ROSTER or bridge demo NUMBER\n",
        ),
        Status::RosterFault { line, kind } => roster_fault_line(line, kind),
        Status::RosterLong => roster_long_line(),
        Status::DumpFault { at, kind } => dump_fault_line(at, kind),
        Status::ReadFault => read_failed_line(),
        Status::WriteFault => write_failed_line(),
        Status::Memory => memory_line(),
    }
}
