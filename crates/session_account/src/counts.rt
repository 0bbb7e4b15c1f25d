//! Counts, and what is counted of a whole session.
ghost use Rattle.std.specs.Prelude.{◌≡◌, ◌+◌, ◌≤◌, OnOk};
ghost use Rattle.session_account.specs.Arriving.{torn_by, with_fault};
ghost use Rattle.session_account.specs.Speaking.{crowded};

use edge_io::Memory;
use rtp_head::HeadFault;
use session_spec::Arrival;

/// The arrivals of which no head could be read, by the reason.
#[derive(Clone, Copy, Debug, PartialEq, Eq)]
pub struct Torn {
    /// Fewer octets were kept than the packet had on the wire.
    pub cut: u64,
    /// There are fewer than twelve octets.
    pub short: u64,
    /// The version isn't 2.
    pub version: u64,
    /// The contributing sources go past the end.
    pub sources: u64,
    /// The extension goes past the end.
    pub extension: u64,
    /// The padding is wrong.
    pub padding: u64,
}

impl Torn {
    /// Nothing was torn.
    pub(crate) fn none() -> Torn
        ensures { result ≡ record { cut = 0; short = 0; version = 0; sources = 0; extension = 0; padding = 0 } }
    {
        Torn {
            cut: 0,
            short: 0,
            version: 0,
            sources: 0,
            extension: 0,
            padding: 0,
        }
    }

    /// Counts an arrival, if it has no head. `Memory` where 64 bits can't count on.
    pub(crate) fn note(&mut self, arrival: Arrival) -> Result<(), Memory>
        ensures { OnOk result (self.new ≡ torn_by arrival self.old) }
    {
        match arrival {
            Arrival::Cut => more(&mut self.cut, 1),
            Arrival::Head(fault) => self.note_fault(fault),
            Arrival::Took { .. }
            | Arrival::Restarted
            | Arrival::Unknown
            | Arrival::PayloadType
            | Arrival::Empty
            | Arrival::TooLong
            | Arrival::Ragged
            | Arrival::Late
            | Arrival::Early => Ok(()),
        }
    }

    /// Counts an arrival whose head has this fault.
    fn note_fault(&mut self, fault: HeadFault) -> Result<(), Memory>
        ensures { OnOk result (self.new ≡ with_fault fault self.old) }
    {
        match fault {
            HeadFault::Short => more(&mut self.short, 1),
            HeadFault::Version => more(&mut self.version, 1),
            HeadFault::Csrcs => more(&mut self.sources, 1),
            HeadFault::Extension => more(&mut self.extension, 1),
            HeadFault::Padding => more(&mut self.padding, 1),
        }
    }
}

/// The ticks of a session, by how many were heard in them.
#[derive(Clone, Copy, Debug, PartialEq, Eq)]
pub struct Crowd {
    pub none: u64,
    pub one: u64,
    pub two: u64,
    pub three: u64,
}

impl Crowd {
    /// No tick has ended.
    pub(crate) fn none() -> Crowd
        ensures { result ≡ record { none = 0; one = 0; two = 0; three = 0 } }
    {
        Crowd {
            none: 0,
            one: 0,
            two: 0,
            three: 0,
        }
    }

    /// Counts a tick in which so many were heard. `Memory` where 64 bits can't count on.
    pub(crate) fn note(&mut self, voices: usize) -> Result<(), Memory>
        requires { voices ≤ 3 }
        ensures { OnOk result (self.new ≡ crowded voices self.old) }
    {
        match voices {
            0 => more(&mut self.none, 1),
            1 => more(&mut self.one, 1),
            2 => more(&mut self.two, 1),
            _ => more(&mut self.three, 1),
        }
    }
}

/// Adds to a count. `Memory` where 64 bits can't count on.
pub(crate) fn more(count: &mut u64, by: u64) -> Result<(), Memory>
    ensures { OnOk result (count.new ≡ count.old + by) }
{
    match count.checked_add(by) {
        Some(sum) => {
            *count = sum;
            Ok(())
        }
        None => Err(Memory),
    }
}
