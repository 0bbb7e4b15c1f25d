//! Permits: one for each run of the encoder, given out by a meter.

ghost use Rattle.std.specs.Prelude.{◌≡◌, ℕ, ◌+◌, ◌^◌, ◌<◌, ◌≤◌};

use std::marker::Model;

/// The leave to run the encoder once. It is neither cloned nor given out again, and `encode` spends it.
///
/// Contracts see a permit as its number.
#[derive(Debug, Drop)]
pub struct Permit {
    number: u64,
}

impl Model for Permit {
    ghost Value = { ℕ };

    ghost view = { λ p. p.number };
}

impl Permit {
    /// The place of this permit in its meter's order; the first has 1.
    pub fn number(&self) -> u64
        ensures { result ≡ self.now }
    {
        self.number
    }
}

/// What gives out permits, and counts them.
///
/// Contracts see a meter as the number of permits that it gave out.
#[derive(Debug, Drop)]
pub struct Meter {
    issued: u64,
}

impl Model for Meter {
    ghost Value = { ℕ };

    ghost view = { λ m. m.issued };

    ghost invariant = { λ m. m.issued ≤ 2 ^ 62 };
}

impl Meter {
    /// A meter that gave out none.
    pub fn new() -> Meter
        ensures { result ≡ 0 }
    {
        Meter { issued: 0 }
    }

    /// One permit more. A meter ends at 2^62 of them.
    pub fn issue(&mut self) -> Permit
        requires { self.old < 2 ^ 62 }
        ensures number { result ≡ self.old + 1 }
        ensures issued { self.new ≡ self.old + 1 }
    {
        self.issued += 1;
        Permit {
            number: self.issued,
        }
    }

    /// The number of permits given out.
    pub fn issued(&self) -> u64
        ensures value { result ≡ self.now }
        ensures within { self.now ≤ 2 ^ 62 }
    {
        self.issued
    }
}
