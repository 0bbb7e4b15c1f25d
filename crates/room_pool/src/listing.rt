//! A list of rooms: a text of lines, each a roster, a capture and an output.
ghost use Rattle.std.specs.Prelude.{◌≡◌, ◌<◌, ◌≤◌, ℕ, Some, length, slice_get, IfOk};
ghost use Rattle.std.specs.List.{list_any};
ghost use Rattle.std.specs.Str.{bytes_eq};
ghost use Rattle.roster_text.specs.Lines.{words_of};
ghost use Rattle.room_pool.specs.Listed.{IsList, has_place, room_list};
ghost use Rattle.room_pool.specs.Told.{Steps, Answers};

use crate::names::{RoomNames, read_words};
use roster_text::{skips, split_line, split_words};
use std::alloc::{AllocError, Global};
use std::marker::Model;

/// Octets of the longest list that is read.
pub const MAX_LIST_LEN: usize = 65_536;

/// The most rooms of a list.
pub const MAX_ROOMS: usize = 16;

/// Why there is no list.
#[derive(Clone, Copy, Debug, PartialEq, Eq)]
pub enum ListError {
    /// The first bad line, counted from 1 with skipped lines included; where there is no room, the line behind the last.
    Bad { line: u32 },
    /// There was no memory.
    Memory,
}

impl From<AllocError> for ListError {
    ghost use Rattle.room_pool.specs.declared.listing.ListError.TheVariants.{Memory as no_memory};

    ghost from_gives = { λ _ error. error ≡ no_memory };

    fn from(_error: AllocError) -> ListError {
        ListError::Memory
    }
}

/// A list of rooms. Contracts see the names of each.
#[derive(Debug, Drop)]
pub struct RoomList {
    rooms: Vec<RoomNames>,
}

impl Model for RoomList {
    ghost use Rattle.std.specs.Prelude.{List};
    ghost use Rattle.room_pool.specs.Named.{Named};

    ghost Value = { List Named };

    ghost view = { λ l. l.rooms.items };
}

impl RoomList {
    /// How many rooms there are. Takes no memory.
    pub fn len(&self) -> usize
        ensures { result ≡ length self.now }
    {
        self.rooms.len()
    }

    /// The names of the room at place `i`, counted from 0. Takes no memory.
    pub fn room(&self, i: usize) -> &RoomNames
        requires { i < length self.now }
        ensures { slice_get self.now i ≡ Some result.now }
    {
        &self.rooms[i]
    }

    /// Whether one more room may stand behind those before it: there are fewer than 16, and none has this output.
    fn has_place(&self, out: &str) -> bool
        ensures { result ≡ has_place self.now out.now }
    {
        self.rooms.len() < MAX_ROOMS && !stands_in(self.rooms.as_slice(), out)
    }

    /// Learns a line, and says whether it is a good one. After a bad one, and after want of memory, the list is of no more use.
    fn step(&mut self, alloc: Global, line: &[u8]) -> Result<bool, AllocError>
        ensures { IfOk result (λ good. Steps self.old self.new (words_of line.now) good) }
    {
        let words = split_words(alloc, line)?;
        if skips(words.as_slice()) {
            return Ok(true);
        }
        let Some(names) = read_words(words.as_slice()) else {
            return Ok(false);
        };
        if !self.has_place(names.out) {
            return Ok(false);
        }
        self.rooms.push(RoomNames::of(alloc, names)?)?;
        Ok(true)
    }
}

/// Whether one of these rooms has this output.
fn stands_in(rooms: &[RoomNames], out: &str) -> bool
    ensures { result ≡ list_any (λ r. bytes_eq r.out out.now) rooms.now }
{
    rooms.iter().any(|room| room.out() == out)
}

/// Reads a list of rooms, of at most 65,536 octets. Lines and words are parted, and lines skipped, as in a roster.
///
/// # Errors
///
/// `Bad` exactly at the first line that isn't three words, that has a word that isn't UTF-8, whose output stands in a line before, or
/// that names a seventeenth room; where there is no room, at the line behind the last. `Memory` where there was no memory.
pub fn read_list(alloc: Global, bytes: &[u8]) -> Result<RoomList, ListError>
    requires { length bytes.now ≤ 65536 }
    ensures answers { Answers result (room_list bytes.now) }
    ensures kept { IfOk result (λ list. IsList list × (0 < length list)) }
{
    let mut list = RoomList {
        rooms: Vec::new(alloc),
    };
    let mut rest = bytes;
    let mut line: u32 = 1;
    while let Some((text, after)) = split_line(rest) {
        if !list.step(alloc, text)? {
            return Err(ListError::Bad { line });
        }
        rest = after;
        line += 1;
    }
    if list.rooms.is_empty() {
        return Err(ListError::Bad { line });
    }
    Ok(list)
}
