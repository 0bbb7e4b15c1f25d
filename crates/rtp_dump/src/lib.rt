//! Captures in the rtpdump format of rtptools: a reader that gives the records one by one, and a writer.
//!
//! Both stream: what they keep doesn't grow with the capture. The reader gives records up to a moment as
//! well, and holds back the first that lies past it. They stand on the sources and sinks of `edge_io`, of
//! whatever sizes the reads and writes are, and on `byteorder` for numbers in network order.
//!
//! The format is spelled in `specs/Spelling.antt`. The reader answers what `specs/Capture.antt` makes of
//! the octets, record by record, with the kind and place of the first fault. That this is the spelling
//! read back, in both directions, is the contract of `read_is_spelled` and `spelled_is_read`. What the
//! writer writes is read again as the same records: `written_is_read`.
#![tactic(auto)]

mod faults;
mod item;
mod laws;
mod opening;
mod reader;
mod record;
mod stage;
mod writer;

pub use faults::{DumpFault, DumpKind, HeadEnd};
pub use item::{DumpItem, MAX_LINE_LEN, MAX_OCTETS, MAX_RECORDS};
pub use laws::{read_is_spelled, spelled_is_read, written_is_read};
pub use reader::Reader;
pub use writer::DumpWriter;

#[cfg(test)]
mod tests;
