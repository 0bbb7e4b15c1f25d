//! The reader of a whole roster.

ghost use Rattle.std.specs.Prelude.{◌≤◌, length};
ghost use Rattle.roster_text.specs.Roster.{roster};
ghost use Rattle.roster_text.specs.Answering.{Answers};

use crate::faults::{RosterError, RosterKind};
use crate::reader::Reader;
use crate::roster::Roster;
use crate::words::split_line;
use std::alloc::Global;

/// Reads a roster, of at most 1,048,576 octets.
///
/// Each line is read with a fixed number of look-ups, so the time grows with the length of the text.
///
/// # Errors
///
/// `Bad` exactly at the first bad line, with what is wrong with it; `Memory` where there was no memory.
pub fn read(alloc: Global, bytes: &[u8]) -> Result<Roster, RosterError>
    requires { length bytes.now ≤ 1048576 }
    ensures { Answers result (roster bytes.now) }
{
    let mut reader = Reader::new(alloc);
    let mut rest = bytes;
    let mut line: u32 = 1;
    while let Some((text, after)) = split_line(rest) {
        if let Some(kind) = reader.step(alloc, text)? {
            return Err(RosterError::Bad { line, kind });
        }
        rest = after;
        line += 1;
    }
    match reader.end {
        Some(end) => Ok(Roster::of(reader.timed, end)),
        None => Err(RosterError::Bad {
            line,
            kind: RosterKind::NoEnd,
        }),
    }
}
