//! Ends in memory that never fail.
ghost use Rattle.std.specs.Prelude.{◌≡◌, ◌+◌, ◌-◌, ◌^◌, ◌<◌, ◌≤◌, ◌≢◌, ◌↔◌, ℕ, List, [], Some, length, drop, min, IfOk, IsErrOf};
ghost use Rattle.edge_io.specs.File.{content};

use crate::faults::{Failed, PutFault, TakeFault};
use crate::octet_list::Octets;
use crate::shelves::Shelf;
use crate::sinks::Sink;
use crate::sources::Source;
use std::alloc::Global;
use std::marker::Model;

/// A source over octets in memory that never fails. Contracts see the octets that are left.
#[derive(Debug, Drop)]
pub struct CalmSource {
    octets: Octets,
    at: usize,
}

impl Model for CalmSource {
    ghost use Rattle.std.specs.Prelude.{List, ℕ, ◌≤◌, length, drop};

    ghost Value = { List ℕ };

    ghost view = { λ source. drop source.at source.octets };

    ghost invariant = { λ source. source.at ≤ length source.octets };
}

impl CalmSource {
    /// A source that gives `octets`. Takes no memory.
    pub fn new(octets: Octets) -> CalmSource
        ensures { result ≡ octets }
    {
        CalmSource { octets, at: 0 }
    }
}

impl Source for CalmSource {
    ghost rest = { λ source. Some source };

    ghost faults = { λ _. 0 };

    fn read(&mut self, buf: &mut [u8]) -> Result<usize, Failed> {
        let octets = self.octets.as_slice();
        let n = buf.len().min(octets.len() - self.at);
        buf[..n].copy_from_slice(&octets[self.at..self.at + n]);
        self.at += n;
        Ok(n)
    }
}

/// A sink that keeps all octets in memory and never fails.
#[derive(Debug, Drop)]
pub struct CalmSink {
    octets: Vec<u8>,
    lacks: u64,
}

impl Model for CalmSink {
    ghost use Rattle.std.specs.Prelude.{List, ℕ};
    ghost use Rattle.edge_io.specs.Kept.{Kept};

    ghost Value = { Kept };

    ghost view = { λ sink. record { octets = sink.octets.items; lacks = sink.lacks } };
}

impl CalmSink {
    /// A sink that holds nothing. Takes no memory.
    pub fn new(alloc: Global) -> CalmSink
        ensures octets { result.octets ≡ [] }
        ensures lacks { result.lacks ≡ 0 }
    {
        CalmSink {
            octets: Vec::new(alloc),
            lacks: 0,
        }
    }

    /// Lends what the sink holds.
    pub fn as_slice(&self) -> &[u8]
        ensures { result.now ≡ self.now.octets }
    {
        self.octets.as_slice()
    }
}

impl Sink for CalmSink {
    ghost held = { λ sink. Some sink.octets };

    ghost faults = { λ _. 0 };

    ghost lacks = { λ sink. sink.lacks };

    fn write(&mut self, _alloc: Global, piece: &[u8]) -> Result<usize, PutFault> {
        if piece.is_empty() {
            return Ok(0);
        }
        if self.octets.extend_from_slice(piece).is_err() {
            self.lacks = self.lacks.saturating_add(1);
            return Err(PutFault::Memory);
        }
        Ok(piece.len())
    }
}

/// A shelf that gives one content for every name and never fails. Contracts see the content.
#[derive(Debug, Drop)]
pub struct CalmShelf {
    octets: Octets,
}

impl Model for CalmShelf {
    ghost use Rattle.std.specs.Prelude.{List, ℕ};

    ghost Value = { List ℕ };

    ghost view = { λ shelf. shelf.octets };
}

impl CalmShelf {
    /// A shelf whose every name has this content. Takes no memory.
    pub fn new(octets: Octets) -> CalmShelf
        ensures { result ≡ octets }
    {
        CalmShelf { octets }
    }
}

impl Shelf for CalmShelf {
    ghost file = { λ shelf _. content shelf };

    ghost faults = { λ _. 0 };

    ghost calm = { λ _. Unit {0} };

    fn take(&mut self, alloc: Global, _name: &str, at_most: usize) -> Result<Octets, TakeFault> {
        copy_whole(alloc, &self.octets, at_most)
    }
}

/// A copy of `octets`, which are to be at most `at_most`.
pub(crate) fn copy_whole(
    alloc: Global,
    octets: &Octets,
    at_most: usize,
) -> Result<Octets, TakeFault>
    ensures ok { IfOk result (λ copy. copy ≡ octets.now) }
    ensures too_long { IsErrOf result TakeFault.TooLong ↔ (at_most < length octets.now) }
    ensures not_failed { result ≢ Err TakeFault.Failed }
{
    let octets = octets.as_slice();
    if octets.len() > at_most {
        return Err(TakeFault::TooLong);
    }
    Ok(Octets::of(Vec::from_slice(alloc, octets)?))
}
