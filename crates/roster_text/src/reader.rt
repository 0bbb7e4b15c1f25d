//! The lines of a roster, one by one.

ghost use Rattle.std.specs.Prelude.{◌≡◌, None, reverse, IfOk, OnOk};
ghost use Rattle.roster_text.specs.Places.{place_fault};
ghost use Rattle.roster_text.specs.Lines.{words_of};
ghost use Rattle.roster_text.specs.Lent.{texts};
ghost use Rattle.roster_text.specs.Roster.{is_skipped, nothing_known, with_entry};
ghost use Rattle.roster_text.specs.Reading.{Stands, Steps, known_of};

use crate::commands::Timed;
use crate::entry::Entry;
use crate::faults::RosterKind;
use crate::room::Room;
use crate::shapes::begins_with;
use crate::values::read_words;
use crate::words::split_words;
use std::alloc::{AllocError, Global};

/// The greatest time of an end in milliseconds: 24 hours.
const LATEST_END: u32 = 86_400_000;

/// What the lines so far told.
#[derive(Drop)]
pub(crate) struct Reader {
    pub(crate) timed: Vec<Timed>,
    pub(crate) end: Option<u32>,
    room: Room,
    latest: u32,
}

impl Reader {
    /// A reader before the first line.
    pub(crate) fn new(alloc: Global) -> Reader
        ensures known { known_of result ≡ nothing_known }
        ensures stands { Stands result }
    {
        Reader {
            timed: Vec::new(alloc),
            end: None,
            room: Room::new(alloc),
            latest: 0,
        }
    }

    /// Reads a line. The answer is what is wrong with it; then, and after want of memory, the reader is of no more use.
    pub(crate) fn step(
        &mut self,
        alloc: Global,
        line: &[u8],
    ) -> Result<Option<RosterKind>, AllocError>
        requires { Stands self.old }
        ensures { IfOk result (λ fault. Steps self.old self.new (words_of line.now) fault) }
    {
        let words = split_words(alloc, line)?;
        if skips(words.as_slice()) {
            return Ok(None);
        }
        if self.end.is_some() {
            return Ok(Some(RosterKind::AfterEnd));
        }
        let entry = match read_words(words.as_slice()) {
            Ok(entry) => entry,
            Err(kind) => return Ok(Some(kind)),
        };
        if let Some(kind) = self.fault(entry) {
            return Ok(Some(kind));
        }
        self.learn(entry)?;
        Ok(None)
    }

    /// What is wrong with a line here that says this.
    fn fault(&self, entry: Entry) -> Option<RosterKind>
        requires { Stands self.now }
        ensures { result ≡ place_fault (reverse self.now.timed.items) entry }
    {
        match entry {
            Entry::Says(timed) => {
                if timed.at < self.latest {
                    return Some(RosterKind::Back);
                }
                self.room.fault(timed.command)
            }
            Entry::Ends(at) => {
                if at < self.latest {
                    Some(RosterKind::Back)
                } else if at > LATEST_END {
                    Some(RosterKind::TicksOver)
                } else {
                    None
                }
            }
        }
    }

    /// Keeps what a line says, where nothing is wrong with it.
    fn learn(&mut self, entry: Entry) -> Result<(), AllocError>
        requires stands { Stands self.old }
        requires placed { place_fault (reverse self.old.timed.items) entry ≡ None }
        ensures known { OnOk result (known_of self.new ≡ with_entry (known_of self.old) entry) }
        ensures stands { OnOk result (Stands self.new) }
    {
        match entry {
            Entry::Says(timed) => {
                self.room.apply(timed.command)?;
                self.timed.push(timed)?;
                self.latest = timed.at;
            }
            Entry::Ends(at) => {
                self.end = Some(at);
            }
        }
        Ok(())
    }
}

/// Whether a line of these words says nothing: it has no word, or is a comment.
pub fn skips(words: &[&[u8]]) -> bool
    ensures { result ≡ is_skipped (texts words.now) }
{
    match words {
        [] => true,
        [word, ..] => begins_with(word, "#"),
    }
}
