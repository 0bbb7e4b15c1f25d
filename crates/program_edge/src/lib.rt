//! The edge that programs have in common: the words of a command line, a line made in place, and a line that is tried once.
//!
//! Rests on `edge_io` for ends and words, on `roster_text` for what a number is, and on `clap` for words after a command.
//! It promises which words are a command's operand or a number, and what stands on an end after a line was tried.
#![tactic(auto)]

mod arguments;
mod lines;
mod words;

pub use arguments::command_line;
pub use lines::{Line, add_number, line, place_line, tell_once};
pub use words::{WordsFault, decimal, is_plain_word, lend, operand};

#[cfg(test)]
mod tests;
