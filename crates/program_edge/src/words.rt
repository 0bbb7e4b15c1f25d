//! The words of a command line.
ghost use Rattle.std.specs.Prelude.{◌≡◌, ◌≤◌, Some, None, IfOk, IfSome, IsErrOf, IsTrue, drop};
ghost use Rattle.std.specs.List.{list_all};
ghost use Rattle.clap.specs.Words.{app_of};
ghost use Rattle.program_edge.specs.Words.{texts_of, is_plain, only_of, operand_of, begins_above_zero, number_upto};
ghost use Rattle.program_edge.specs.OneWord.{one_word};

use clap::error::ErrorKind;
use clap::{Arg, Command};
use edge_io::{Memory, Words};
use std::alloc::{AllocError, Global};

/// Why the words are no form of the program.
#[derive(Clone, Copy, Debug, PartialEq, Eq)]
pub enum WordsFault {
    /// They aren't a command line of this program.
    Usage,
    /// There was no memory for them.
    Memory,
}

impl From<Memory> for WordsFault {
    ghost use Rattle.program_edge.specs.declared.words.WordsFault.TheVariants.{Memory as no_memory};

    ghost from_gives = { λ _ fault. fault ≡ no_memory };

    fn from(_: Memory) -> WordsFault {
        WordsFault::Memory
    }
}

/// The words, lent one by one.
///
/// # Errors
///
/// `Memory` where there was none for the list.
pub fn lend<'a>(alloc: Global, words: &'a Words) -> Result<Vec<&'a str>, Memory>
    ensures { IfOk result (λ list. texts_of list.items ≡ words.entry.now) }
{
    let mut list = Vec::new(alloc);
    for i in 0..words.len() {
        list.push(words.word(i))?;
    }
    Ok(list)
}

/// The number, from 1 to `greatest`, that a word says in decimal digits without a leading zero; `None` where it says none.
pub fn decimal(word: &str, greatest: u32) -> Option<u32>
    ensures value { result ≡ number_upto greatest word.now }
    ensures bound { IfSome result (λ number. (1 ≤ number) × (number ≤ greatest)) }
{
    if !begins_above_zero(word) {
        return None;
    }
    match word.parse::<u32>() {
        Ok(number) if number <= greatest => Some(number),
        _ => None,
    }
}

/// A word that begins with a digit other than 0.
fn begins_above_zero(word: &str) -> bool
    ensures { result ≡ begins_above_zero word.now }
{
    match word.as_bytes() {
        [] => false,
        [first, ..] => *first >= b'1' && *first <= b'9',
    }
}

/// The one word after the command of this name, where no word after it is empty or begins with a dash.
///
/// # Errors
///
/// `Usage` where the words are no such command, `Memory` where there was none to parse them.
pub fn operand<'a>(alloc: Global, words: &'a [&'a str], name: &str) -> Result<&'a str, WordsFault>
    ensures ok { IfOk result (λ word. operand_of name.now (texts_of words.entry.now) ≡ Some word.now) }
    ensures usage { IsErrOf result WordsFault.Usage → operand_of name.now (texts_of words.entry.now) ≡ None }
{
    let Some((command, others)) = words.split_first() else {
        return Err(WordsFault::Usage);
    };
    if *command != name {
        return Err(WordsFault::Usage);
    }
    if !are_plain(others) {
        return Err(WordsFault::Usage);
    }
    one_positional(alloc, words)
}

/// Words of which none is empty or begins with a dash.
fn are_plain(words: &[&str]) -> bool
    ensures { result ≡ list_all is_plain (texts_of words.now) }
{
    match words {
        [] => true,
        [word, others @ ..] => is_plain_word(word) && are_plain(others),
    }
}

/// A word that isn't empty and doesn't begin with a dash.
pub fn is_plain_word(word: &str) -> bool
    ensures { result ≡ is_plain word.now }
{
    match word.as_bytes() {
        [] => false,
        [first, ..] => *first != b'-',
    }
}

/// The one word after the first, of words of which none after the first is empty or begins with a
/// dash.
fn one_positional<'a>(alloc: Global, words: &'a [&'a str]) -> Result<&'a str, WordsFault>
    requires { IsTrue (list_all is_plain (drop 1 (texts_of words.now))) }
    ensures ok { IfOk result (λ word. only_of (texts_of words.entry.now) ≡ Some word.now) }
    ensures usage { IsErrOf result WordsFault.Usage → only_of (texts_of words.entry.now) ≡ None }
{
    let Ok(command) = one_word_command(alloc) else {
        return Err(WordsFault::Memory);
    };
    match command.try_get_matches_from(words) {
        Ok(matches) => match matches.get_str("word") {
            Some(word) => Ok(word),
            None => unreachable!(),
        },
        Err(error) => match error.kind() {
            ErrorKind::OutOfMemory => Err(WordsFault::Memory),
            _ => Err(WordsFault::Usage),
        },
    }
}

/// A command of one required word.
fn one_word_command<'a>(alloc: Global) -> Result<Command<'a>, AllocError>
    ensures { IfOk result (λ command. app_of command ≡ one_word) }
{
    let word = Arg::new(alloc, "word").required(true);
    Command::new(alloc, "program").arg(word)
}
