//! A sink that takes everything and keeps nothing.
ghost use Rattle.std.specs.Prelude.{None};

use edge_io::{PutFault, Sink};
use std::alloc::Global;

/// Where a session writes whose packets are looked at before. It tells nothing of what it took, and never fails.
#[derive(Drop)]
pub(crate) struct Nowhere;

impl Sink for Nowhere {
    ghost held = { λ _. None };

    ghost faults = { λ _. 0 };

    ghost lacks = { λ _. 0 };

    fn write(&mut self, _alloc: Global, piece: &[u8]) -> Result<usize, PutFault> {
        Ok(piece.len())
    }
}
