//! How a call of the program ends.
ghost use Rattle.std.specs.Prelude.{◌≡◌};

use edge_io::PutFault;
use roster_text::{RosterError, RosterKind};
use udp_edge::{PeerKind, PeersError};

/// How a call of the program ended.
#[derive(Clone, Copy, Debug, PartialEq, Eq)]
pub enum ServeStatus {
    /// The whole session was run, its packets and reports were tried, and the summary was written.
    Done,
    /// The words aren't those of the program.
    Usage,
    /// This line of the roster is the first bad one, and why; lines are counted from 1.
    RosterFault { line: u32, kind: RosterKind },
    /// The roster has more than 1,048,576 octets.
    RosterLong,
    /// The text of peers has more than 1,048,576 octets.
    PeersLong,
    /// This line of the peers is the first bad one, and why; lines are counted from 1.
    PeerFault { line: u32, kind: PeerKind },
    /// This member is the first that comes to listen and has no peer.
    PeerMissing { member: u32 },
    /// The link couldn't be opened.
    LinkFault,
    /// The roster or the peers couldn't be read.
    ReadFault,
    /// The summary couldn't be written.
    WriteFault,
    /// There was no memory.
    Memory,
}

impl From<RosterError> for ServeStatus {
    ghost use Rattle.live_serve.specs.Causes.{of_roster};

    ghost from_gives = { λ fault status. status ≡ of_roster fault };

    fn from(fault: RosterError) -> ServeStatus {
        match fault {
            RosterError::Bad { line, kind } => ServeStatus::RosterFault { line, kind },
            RosterError::Memory => ServeStatus::Memory,
        }
    }
}

impl From<PeersError> for ServeStatus {
    ghost use Rattle.live_serve.specs.Causes.{of_peers};

    ghost from_gives = { λ fault status. status ≡ of_peers fault };

    fn from(fault: PeersError) -> ServeStatus {
        match fault {
            PeersError::Bad { line, kind } => ServeStatus::PeerFault { line, kind },
            PeersError::Memory => ServeStatus::Memory,
        }
    }
}

impl From<PutFault> for ServeStatus {
    ghost use Rattle.live_serve.specs.Causes.{of_put};

    ghost from_gives = { λ fault status. status ≡ of_put fault };

    fn from(fault: PutFault) -> ServeStatus {
        match fault {
            PutFault::Failed => ServeStatus::WriteFault,
            PutFault::Memory => ServeStatus::Memory,
        }
    }
}
