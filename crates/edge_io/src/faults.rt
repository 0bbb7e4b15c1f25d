//! Why a call at an end of the program didn't succeed.
ghost use Rattle.std.specs.Prelude.{◌≡◌};

use std::alloc::{AllocError, AllocFailed};

/// There was no memory for what a call had to keep.
#[derive(Clone, Copy, Debug, PartialEq, Eq)]
pub struct Memory;

/// A call of an end failed, and its count of failures has risen.
#[derive(Clone, Copy, Debug, PartialEq, Eq)]
pub struct Failed;

/// Why a [`Sink`](crate::Sink) took nothing.
#[derive(Clone, Copy, Debug, PartialEq, Eq)]
pub enum PutFault {
    /// The write failed.
    Failed,
    /// There was no memory for what was to be kept.
    Memory,
}

/// Why a [`Shelf`](crate::Shelf) gave nothing.
#[derive(Clone, Copy, Debug, PartialEq, Eq)]
pub enum TakeFault {
    /// The name isn't there, or reading it failed.
    Failed,
    /// The content is longer than the caller allows.
    TooLong,
    /// There was no memory for the content.
    Memory,
}

impl From<AllocError> for Memory {
    fn from(_error: AllocError) -> Memory {
        Memory
    }
}

impl<T: Drop> From<AllocFailed<T>> for Memory {
    fn from(_error: AllocFailed<T>) -> Memory {
        Memory
    }
}

impl From<AllocError> for PutFault {
    ghost use Rattle.edge_io.specs.declared.faults.PutFault.TheVariants.{Memory as no_memory};

    ghost from_gives = { λ _ fault. fault ≡ no_memory };

    fn from(_error: AllocError) -> PutFault {
        PutFault::Memory
    }
}

impl From<AllocError> for TakeFault {
    ghost use Rattle.edge_io.specs.declared.faults.TakeFault.TheVariants.{Memory as no_memory};

    ghost from_gives = { λ _ fault. fault ≡ no_memory };

    fn from(_error: AllocError) -> TakeFault {
        TakeFault::Memory
    }
}
