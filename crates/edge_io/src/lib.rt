//! The ends of a program: where octets come from and where they go, with every failure counted.
//!
//! Rests on std alone. Code above is generic over [`Source`], [`Sink`] and [`Shelf`], and is proved
//! once for all of their ends. It promises that octets are taken and given in order and once each,
//! and that a call answers that it failed only where the count of failures of its end rose.
#![tactic(auto)]

mod calm;
mod failing;
mod faults;
mod named;
mod octet_list;
mod plan;
mod real;
mod shelves;
mod sinks;
mod sources;
mod word_list;

pub use calm::{CalmShelf, CalmSink, CalmSource};
pub use failing::{MemShelf, MemSink, MemSource};
pub use faults::{Failed, Memory, PutFault, TakeFault};
pub use octet_list::Octets;
pub use plan::Plan;
pub use real::{FileShelf, StdSink, StdSource};
pub use shelves::Shelf;
pub use sinks::{Sink, write_all};
pub use sources::{Source, read_full};
pub use word_list::Words;
