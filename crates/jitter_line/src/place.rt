//! What one place of a line holds, in two octets, so that a frame's places are copied like its samples.

ghost use Rattle.std.specs.Prelude.{◌≡◌, pos, None, Some, is_none, unwrap_or};
ghost use Rattle.g726_bits.specs.Ranges.{IsSample};

use std::marker::Model;

/// What stands in a place that holds nothing. No sample on the 14-bit scale is so low.
const NOTHING: i16 = i16::MIN;

/// A sample, or nothing.
///
/// Contracts see it as `Some` sample, or `None`.
#[derive(Clone, Copy)]
pub(crate) struct Place {
    word: i16,
}

impl Model for Place {
    ghost use Rattle.std.specs.Prelude.{ℤ, Option};
    ghost use Rattle.jitter_line.specs.Words.{held_in, word_of, word_shown};

    ghost Value = { Option ℤ };

    ghost view = { λ p. held_in p.word };

    ghost inverse = { λ o. record { word = word_of o } };

    ghost inverse_ok = { λ p h. λ i. record { word = word_shown p.word i } };
}

impl Place {
    /// A place that holds nothing.
    #[inline]
    pub(crate) fn empty() -> Place
        ensures { result ≡ None }
    {
        Place { word: NOTHING }
    }

    /// A place that holds this sample.
    #[inline]
    pub(crate) fn of(sample: i16) -> Place
        requires { IsSample sample }
        ensures { result ≡ Some sample }
    {
        Place { word: sample }
    }

    /// Whether it holds nothing.
    #[inline]
    pub(crate) fn is_empty(self) -> bool
        ensures { result ≡ is_none self }
    {
        self.word == NOTHING
    }

    /// What is said from it: its sample, or 0 where it holds none.
    #[inline]
    pub(crate) fn said(self) -> i16
        ensures { result ≡ unwrap_or self (pos 0) }
    {
        if self.word == NOTHING { 0 } else { self.word }
    }
}
