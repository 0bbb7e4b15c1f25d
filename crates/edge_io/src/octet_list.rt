//! A list of octets that its owner keeps.
ghost use Rattle.std.specs.Prelude.{◌≡◌};

use std::marker::Model;

/// A list of octets. Contracts see the list itself.
#[derive(Debug, Drop)]
pub struct Octets {
    items: Vec<u8>,
}

impl Model for Octets {
    ghost use Rattle.std.specs.Prelude.{List, ℕ};

    ghost Value = { List ℕ };

    ghost view = { λ octets. octets.items.items };
}

impl Octets {
    /// The octets of `items`. Takes no memory.
    pub fn of(items: Vec<u8>) -> Octets
        ensures { result ≡ items.items }
    {
        Octets { items }
    }

    /// Gives the vector that has the octets. Takes no memory.
    pub fn into_vec(self) -> Vec<u8>
        ensures { result.items ≡ self }
    {
        self.items
    }

    /// Lends the octets.
    pub fn as_slice(&self) -> &[u8]
        ensures { result.now ≡ self.now }
    {
        self.items.as_slice()
    }
}
