//! What a room begins with.
ghost use Rattle.std.specs.Prelude.{◌≡◌, ◌≤◌, ℕ, List, length, IfOk, IfSome};
ghost use Rattle.rooms_run.specs.Ends.{given_to};
ghost use Rattle.rooms_run.specs.Starting.{start_gives, TakenUpTo};

use crate::ends::RoomEnd;
use edge_io::{Memory, Octets};
use roster_text::{Roster, RosterError, read};
use std::alloc::Global;

/// What the roster and the capture of a room give it.
#[derive(Drop)]
pub(crate) enum Start {
    /// The room has no session, and ends so.
    Ends(RoomEnd),
    /// It has the session of this roster over this capture.
    Runs { roster: Roster, dump: Octets },
}

/// What a roster and a capture give a room; `None` is one that is too long.
///
/// # Errors
///
/// `Memory` where there was no memory to read the roster.
pub(crate) fn start_of(
    alloc: Global,
    text: Option<Octets>,
    dump: Option<Octets>,
) -> Result<Start, Memory>
    requires short { IfSome text (λ octets. length octets ≤ 1048576) }
    ensures gives { IfOk result (λ start. (held bytes : List ℕ) → TakenUpTo 1048576 held text → TakenUpTo 67108864 bytes dump →
        start_gives start ≡ given_to held bytes) }
{
    let Some(text) = text else {
        return Ok(Start::Ends(RoomEnd::RosterLong));
    };
    let roster = match read(alloc, text.as_slice()) {
        Ok(roster) => roster,
        Err(RosterError::Bad { line, kind }) => {
            return Ok(Start::Ends(RoomEnd::RosterBad { line, kind }));
        }
        Err(RosterError::Memory) => return Err(Memory),
    };
    match dump {
        Some(dump) => Ok(Start::Runs { roster, dump }),
        None => Ok(Start::Ends(RoomEnd::DumpLong)),
    }
}
