//! The outputs that are kept in memory.
ghost use Rattle.std.specs.Prelude.{◌≡◌, ◌++◌, IfOk, OnOk, OnErr, position};
ghost use Rattle.room_pool.specs.Kept.{has_name, held_among};

use std::alloc::{AllocError, Global};
use std::marker::Model;

/// A name, and the octets that it holds.
#[derive(Debug, Drop)]
pub(crate) struct Filled {
    name: Vec<u8>,
    octets: Vec<u8>,
}

impl Model for Filled {
    ghost use Rattle.room_pool.specs.Kept.{Holding};

    ghost Value = { Holding };

    ghost view = { λ f. record { name = f.name.items; octets = f.octets.items } };
}

impl Filled {
    /// The name with these octets.
    pub(crate) fn new(alloc: Global, name: &[u8], octets: &[u8]) -> Result<Filled, AllocError>
        ensures { IfOk result (λ f. f ≡ record { name = name.now; octets = octets.now }) }
    {
        Ok(Filled {
            name: Vec::from_slice(alloc, name)?,
            octets: Vec::from_slice(alloc, octets)?,
        })
    }

    /// Adds octets. Where there is no memory, nothing is added.
    pub(crate) fn add(&mut self, octets: &[u8]) -> Result<(), AllocError>
        ensures name { self.new.name ≡ self.old.name }
        ensures whole { OnOk result (self.new.octets ≡ self.old.octets ++ octets.now) }
        ensures none { OnErr result (self.new.octets ≡ self.old.octets) }
    {
        self.octets.extend_from_slice(octets)
    }

    /// Whether this is its name.
    fn is(&self, name: &[u8]) -> bool
        ensures { result ≡ has_name name.now self.now }
    {
        self.name.as_slice() == name
    }

    /// Lends the octets.
    fn octets(&self) -> &[u8]
        ensures { result.now ≡ self.now.octets }
    {
        self.octets.as_slice()
    }
}

/// The place of the first with this name.
pub(crate) fn place_of(files: &[Filled], name: &[u8]) -> Option<usize>
    ensures { result ≡ position (has_name name.now) files.now }
{
    files.iter().position(|file| file.is(name))
}

/// Lends what a name holds: nothing, where nothing was added to it.
pub(crate) fn octets_among<'a>(files: &'a [Filled], name: &[u8]) -> &'a [u8]
    ensures { result.now ≡ held_among files.entry.now name.now }
{
    match place_of(files, name) {
        Some(at) => files[at].octets(),
        None => &[],
    }
}
