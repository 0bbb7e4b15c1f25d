//! How far a reader has come.
ghost use Rattle.std.specs.Prelude.{◌≡◌, ◌<◌, ◌≤◌, ◌+◌, ◌*◌, length};
ghost use Rattle.rtp_dump.specs.declared.item.TheConstants.{MAX_RECORDS};
ghost use Rattle.rtp_dump.specs.Spelling.{record_octets};

use crate::faults::{DumpFault, DumpKind};
use crate::item::{DumpItem, MAX_OCTETS, MAX_RECORDS};

/// What a reader has met so far.
#[derive(Clone, Copy, Debug)]
pub(crate) enum Stage {
    /// Nothing was read yet.
    Fresh,
    /// The line and the file head were read.
    Open,
    /// The capture has ended.
    Ended,
    /// This fault was answered, and is answered from now on.
    Stopped(DumpFault),
}

/// Where the next record begins, and how many stand before it.
#[derive(Clone, Copy, Debug)]
pub(crate) struct Progress {
    pub(crate) place: u64,
    pub(crate) records: u32,
    ghost few: { records ≤ MAX_RECORDS },
    ghost near: { place ≤ 1040 + 65535 * records },
}

impl Progress {
    /// The progress before any record, where the first begins here.
    pub(crate) fn start(place: u64) -> Progress
        requires { place ≤ 1040 }
        ensures place { result.place ≡ place }
        ensures records { result.records ≡ 0 }
    {
        Progress { place, records: 0 }
    }

    /// The progress when this record was handed out as well.
    pub(crate) fn after(self, item: &DumpItem) -> Progress
        requires few { self.records < MAX_RECORDS }
        requires short { length item.now.octets ≤ MAX_OCTETS }
        ensures place { result.place ≡ self.place + length (record_octets item.now) }
        ensures records { result.records ≡ self.records + 1 }
    {
        Progress {
            place: self.place + (item.octets.as_slice().len() as u64 + 8),
            records: self.records + 1,
        }
    }

    /// The capture is broken where the next record would begin.
    pub(crate) fn broken(self, kind: DumpKind) -> DumpFault
        ensures { result ≡ DumpFault.Bad self.place kind }
    {
        DumpFault::Bad {
            at: self.place,
            kind,
        }
    }
}
