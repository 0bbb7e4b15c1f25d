//! The roster of a session: who joins, talks, listens and leaves when, as a text of lines.
//!
//! Rests on `g726_bits` for the rates, and on std. It promises that a text is read as its grammar says: as the
//! timed commands and the end that it spells, or with the number and the fault of its first bad line. A
//! [`Roster`] is always what some text spells.
//!
//! The grammar stands in `specs/`: `Lines` parts a text into lines, words and numbers, `Grammar` says what a line
//! says by its words alone, `Places` whether that may stand after the commands before it, and `Roster` what all
//! lines make together. The reader keeps tables in place of those commands, and looks each member and SSRC up.
#![tactic(auto)]

mod commands;
mod entry;
mod faults;
mod laws;
mod line;
mod numbers;
mod reader;
mod reading;
mod room;
mod roster;
mod seat;
mod shapes;
mod tables;
mod values;
mod words;

pub use commands::{Command, Law, Listen, Talk, Timed};
pub use faults::{RosterError, RosterKind};
pub use laws::{commands_are_in_order, commands_are_in_range};
pub use reader::skips;
pub use reading::read;
pub use roster::Roster;
pub use words::{number, split_field, split_line, split_words};

#[cfg(test)]
mod tests;
