//! The words that the system gives a program.

use crate::words::WordsFault;
use edge_io::Words;
use std::alloc::Global;
use std::env;
use std::io::ErrorKind;
use std::rt::Env;

/// The words of the command line after the program's name.
///
/// # Errors
///
/// `Usage` where one of them isn't UTF-8, since that is no word of a command line; `Memory` where there was none for them.
pub fn command_line<R: Env + AllocGlobal>(rt: &R) -> Result<Words, WordsFault> {
    let alloc = rt.alloc();
    let words = match env::args(rt) {
        Ok(words) => words,
        Err(error) => match error.kind() {
            ErrorKind::OutOfMemory => return Err(WordsFault::Memory),
            _ => return Err(WordsFault::Usage),
        },
    };
    let mut line = Words::new(alloc);
    for word in words.skip(1) {
        line.push(alloc, word.as_str())?;
    }
    Ok(line)
}
