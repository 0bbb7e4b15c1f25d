//! Runs by their rates.
ghost use Rattle.std.specs.Prelude.{◌≡◌, OnOk};
ghost use Rattle.g726_bits.specs.declared.Rate.{Rate as AnyRate};
ghost use Rattle.session_account.specs.Encoding.{count_at, ran};

use crate::counts::more;
use edge_io::Memory;
use g726_bits::Rate;

/// How many encoder runs were made at each rate.
#[derive(Clone, Copy, Debug, PartialEq, Eq)]
pub struct Runs {
    /// At 16 kbit/s.
    pub r16: u64,
    /// At 24 kbit/s.
    pub r24: u64,
    /// At 32 kbit/s.
    pub r32: u64,
    /// At 40 kbit/s.
    pub r40: u64,
}

impl Runs {
    /// No run was made.
    pub fn none() -> Runs
        ensures { (rate : AnyRate) → count_at rate result ≡ 0 }
    {
        Runs {
            r16: 0,
            r24: 0,
            r32: 0,
            r40: 0,
        }
    }

    /// Counts a run.
    ///
    /// # Errors
    ///
    /// `Memory` where 64 bits can't count on.
    pub fn note(&mut self, rate: Rate) -> Result<(), Memory>
        ensures { OnOk result (self.new ≡ ran rate self.old) }
    {
        match rate {
            Rate::R16 => more(&mut self.r16, 1),
            Rate::R24 => more(&mut self.r24, 1),
            Rate::R32 => more(&mut self.r32, 1),
            Rate::R40 => more(&mut self.r40, 1),
        }
    }

    /// How many were made at a rate.
    pub(crate) fn at(&self, rate: Rate) -> u64
        ensures { result ≡ count_at rate self.now }
    {
        match rate {
            Rate::R16 => self.r16,
            Rate::R24 => self.r24,
            Rate::R32 => self.r32,
            Rate::R40 => self.r40,
        }
    }
}
