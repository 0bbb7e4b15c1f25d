//! What the words of a command line ask for.
ghost use Rattle.std.specs.Prelude.{◌≡◌};
ghost use Rattle.g726_stream.specs.CommandLine.{asked_of, way_of, rate_of, info_of};

use edge_io::Words;
use g726_bits::Rate;

/// Which way a stream goes through the codec.
#[derive(Clone, Copy, Debug, PartialEq, Eq)]
pub enum Way {
    /// Samples to codes.
    Encode,
    /// Codes to samples.
    Decode,
}

/// What a command line asks for.
#[derive(Clone, Copy, Debug, PartialEq, Eq)]
pub enum Asked {
    /// A stream through the codec, at this rate.
    Coding { way: Way, rate: Rate },
    /// What the program does.
    Help,
    /// The program's name and version.
    Version,
}

/// What the words ask for, or `None` where they are no command line.
pub fn request(words: &Words) -> Option<Asked>
    ensures { result ≡ asked_of words.now }
{
    match words.len() {
        1 => named_text(words.word(0)),
        2 => {
            let way = named_way(words.word(0))?;
            let rate = named_rate(words.word(1))?;
            Some(Asked::Coding { way, rate })
        }
        _ => None,
    }
}

fn named_text(word: &str) -> Option<Asked>
    ensures { result ≡ info_of word.now }
{
    match word {
        "--help" => Some(Asked::Help),
        "--version" => Some(Asked::Version),
        _ => None,
    }
}

fn named_way(word: &str) -> Option<Way>
    ensures { result ≡ way_of word.now }
{
    match word {
        "encode" => Some(Way::Encode),
        "decode" => Some(Way::Decode),
        _ => None,
    }
}

fn named_rate(word: &str) -> Option<Rate>
    ensures { result ≡ rate_of word.now }
{
    match word {
        "16" => Some(Rate::R16),
        "24" => Some(Rate::R24),
        "32" => Some(Rate::R32),
        "40" => Some(Rate::R40),
        _ => None,
    }
}
