//! The forms of the command line that name a roster, and how many workers one asks for.
ghost use Rattle.std.specs.Prelude.{◌≡◌, ◌<◌, ◌≤◌, ℕ, List, Option, Some, None, IfOk, IfSome, IsNone, IsErrOf};
ghost use Rattle.program_edge.specs.Words.{texts_of};
ghost use Rattle.bridge_calls.specs.CommandLine.{roster_of, shared_roster_of, workers_of};

use edge_io::Words;
use program_edge::{WordsFault, decimal, operand};
use std::alloc::Global;

/// The most workers of a session.
const MOST_WORKERS: u32 = 16;

/// A form of the command line that names a roster.
pub trait Form {
    // the roster's name, where the words are of this form
    ghost names: { List (List ℕ) → Option (List ℕ) };

    /// The roster's name.
    ///
    /// # Errors
    ///
    /// `Usage` where the words aren't of this form, `Memory` where there was none to parse them.
    fn name<'a>(alloc: Global, words: &'a [&'a str]) -> Result<&'a str, WordsFault>
        ensures ok { IfOk result (λ name. names (texts_of words.entry.now) ≡ Some name.now) }
        ensures usage { IsErrOf result WordsFault.Usage → names (texts_of words.entry.now) ≡ None };
}

/// `alone ROSTER`.
pub struct Alone;

/// `shared N ROSTER`.
pub struct Beside;

impl Form for Alone {
    ghost names = { roster_of };

    fn name<'a>(alloc: Global, words: &'a [&'a str]) -> Result<&'a str, WordsFault> {
        operand(alloc, words, "alone")
    }
}

impl Form for Beside {
    ghost names = { shared_roster_of };

    /// The count is the command of the words that stand from it on.
    fn name<'a>(alloc: Global, words: &'a [&'a str]) -> Result<&'a str, WordsFault> {
        let [command, others @ ..] = words else {
            return Err(WordsFault::Usage);
        };
        let [count, ..] = others else {
            return Err(WordsFault::Usage);
        };
        if *command != "shared" {
            return Err(WordsFault::Usage);
        }
        if decimal(count, MOST_WORKERS).is_none() {
            return Err(WordsFault::Usage);
        }
        operand(alloc, others, count)
    }
}

/// How many workers the words ask for, where there are three and the second is a number from 1 to 16.
pub fn worker_count(words: &Words) -> Option<u32>
    ensures value { result ≡ workers_of words.now }
    ensures bound { IfSome result (λ count. (0 < count) × (count ≤ 16)) }
    ensures no_form { IsNone result → shared_roster_of words.now ≡ None }
{
    if words.len() != 3 {
        return None;
    }
    decimal(words.word(1), MOST_WORKERS)
}
