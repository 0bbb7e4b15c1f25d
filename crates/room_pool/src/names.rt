//! What a line of a list of rooms names.
ghost use Rattle.std.specs.Prelude.{◌≡◌, true, false, MatchOption, IfOk, IfSome, IsNone, None, Some};
ghost use Rattle.std.specs.Str.{is_utf8};
ghost use Rattle.roster_text.specs.Lent.{texts};
ghost use Rattle.room_pool.specs.Listed.{said_by};
ghost use Rattle.room_pool.specs.Told.{told_by};

use std::alloc::{AllocError, Global};
use std::marker::Model;
use std::str;

/// The names in a line: of a roster, of a capture, and of the output that the answer goes to.
#[derive(Debug, Drop)]
pub struct RoomNames {
    roster: String,
    dump: String,
    out: String,
}

impl Model for RoomNames {
    ghost use Rattle.std.specs.Prelude.{string_bytes};
    ghost use Rattle.room_pool.specs.Named.{Named};

    ghost Value = { Named };

    ghost view = { λ r. record { roster = string_bytes r.roster; dump = string_bytes r.dump; out = string_bytes r.out } };
}

impl RoomNames {
    /// The name of the roster.
    pub fn roster(&self) -> &str
        ensures { result.now ≡ self.now.roster }
    {
        self.roster.as_str()
    }

    /// The name of the capture.
    pub fn dump(&self) -> &str
        ensures { result.now ≡ self.now.dump }
    {
        self.dump.as_str()
    }

    /// The name of the output.
    pub fn out(&self) -> &str
        ensures { result.now ≡ self.now.out }
    {
        self.out.as_str()
    }

    /// Copies of names that are lent.
    ///
    /// # Errors
    ///
    /// `AllocError` where there was no memory.
    pub(crate) fn of(alloc: Global, lent: LentNames<'_>) -> Result<RoomNames, AllocError>
        ensures { IfOk result (λ names. names ≡ told_by lent.entry) }
    {
        Ok(RoomNames {
            roster: String::from_str(alloc, lent.roster)?,
            dump: String::from_str(alloc, lent.dump)?,
            out: String::from_str(alloc, lent.out)?,
        })
    }
}

/// Names that are lent.
#[derive(Clone, Copy)]
pub(crate) struct LentNames<'a> {
    pub(crate) roster: &'a str,
    pub(crate) dump: &'a str,
    pub(crate) out: &'a str,
}

/// The names that a line of these words says; `None` where they aren't three words, each of them text in UTF-8.
pub(crate) fn read_words<'a>(words: &[&'a [u8]]) -> Option<LentNames<'a>>
    ensures some { IfSome result (λ lent. said_by (texts words.now) ≡ Some (told_by lent)) }
    ensures none { IsNone result → said_by (texts words.now) ≡ None }
{
    match words {
        [roster, dump, out] => {
            let roster = text_of(roster)?;
            let dump = text_of(dump)?;
            let out = text_of(out)?;
            Some(LentNames { roster, dump, out })
        }
        _ => None,
    }
}

/// The text that a word is in UTF-8, if it is one.
fn text_of(word: &[u8]) -> Option<&str>
    ensures { MatchOption result (is_utf8 word.now ≡ false) (λ text. (is_utf8 word.now ≡ true) × (text.now ≡ word.now)) }
{
    match str::from_utf8(word) {
        Ok(text) => Some(text),
        Err(_) => None,
    }
}
