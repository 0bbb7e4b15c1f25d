//! The trusted edge: outputs that are files of the system. They tell nothing of what they hold.
//!
//! A call that a signal interrupts is tried again, and is no failed call.
ghost use Rattle.std.specs.Prelude.{None};

use crate::outs::Outs;
use edge_io::{PutFault, Sink, StdSink, write_all};
use std::alloc::Global;
use std::fs::OpenOptions;
use std::rt::Files;

/// The files of the system, by their paths. A file that isn't there is made, and what one holds already stays before what is added.
#[derive(Drop)]
pub struct FileOuts<'a, R> {
    files: &'a R,
    faults: u64,
}

impl<'a, R: Files> FileOuts<'a, R> {
    /// Outputs that open their names as paths through `files`.
    pub fn new(files: &'a R) -> FileOuts<'a, R> {
        FileOuts { files, faults: 0 }
    }
}

impl<R: Files> Outs for FileOuts<'_, R> {
    ghost held = { λ _ _. None };

    ghost faults = { λ o. o.faults };

    fn put(&mut self, alloc: Global, name: &str, octets: &[u8]) -> Result<(), PutFault> {
        let added = add_to_file(alloc, self.files, name, octets);
        if let Err(PutFault::Failed) = added {
            self.faults = self.faults.saturating_add(1);
        }
        added
    }
}

/// Opens the file, or makes it, and writes behind its end.
fn add_to_file<R: Files>(
    alloc: Global,
    files: &R,
    name: &str,
    octets: &[u8],
) -> Result<(), PutFault> {
    match OpenOptions::new()
        .append(true)
        .create(true)
        .open(files, name)
    {
        Ok(file) => write_all(alloc, &mut StdSink::new(file), octets),
        Err(_) => Err(PutFault::Failed),
    }
}
