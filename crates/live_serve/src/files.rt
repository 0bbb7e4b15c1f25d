//! The roster and the peers, from a shelf.
ghost use Rattle.std.specs.Prelude.{◌≡◌, ◌≤◌, ℕ, List, length, IfOk, IfErr};
ghost use Rattle.edge_io.specs.Told.{Rose};
ghost use Rattle.edge_io.specs.File.{IsWhole, content};
ghost use Rattle.live_serve.specs.Steps.{TextEnds, HasRoster, NoRoster, HasPeers, NoPeers};

use crate::status::ServeStatus;
use edge_io::{Octets, Shelf, TakeFault};
use roster_text::Roster;
use session_edge::MAX_ROSTER_LEN;
use std::alloc::Global;
use udp_edge::{Peers, read_peers};

/// Octets of the longest text of peers that is read.
const MAX_PEERS_LEN: usize = 1_048_576;

/// Takes the roster of this name, and reads it.
pub(crate) fn take_roster<F: Shelf>(
    alloc: Global,
    name: &str,
    shelf: &mut F,
) -> Result<Roster, ServeStatus>
    ensures ok { IfOk result (λ told. HasRoster (F.file shelf.old name.now) told) }
    ensures err { IfErr result (λ status.
        NoRoster (F.file shelf.old name.now) (Rose (F.faults shelf.old) (F.faults shelf.new)) status) }
    ensures same { (other : List ℕ) → F.file shelf.new other ≡ F.file shelf.old other }
    ensures never_falls { F.faults shelf.old ≤ F.faults shelf.new }
    ensures calm { (held : List ℕ) → F.file shelf.old name.now ≡ content held → F.calm shelf.old →
        F.faults shelf.new ≡ F.faults shelf.old }
    ensures stays_calm { F.calm shelf.old → F.calm shelf.new }
{
    let text = take_text(alloc, name, shelf, MAX_ROSTER_LEN, ServeStatus::RosterLong)?;
    Ok(roster_text::read(alloc, text.as_slice())?)
}

/// Takes the peers of this name, and reads them.
pub(crate) fn take_peers<F: Shelf>(
    alloc: Global,
    name: &str,
    shelf: &mut F,
) -> Result<Peers, ServeStatus>
    ensures ok { IfOk result (λ peers. HasPeers (F.file shelf.old name.now) peers) }
    ensures err { IfErr result (λ status.
        NoPeers (F.file shelf.old name.now) (Rose (F.faults shelf.old) (F.faults shelf.new)) status) }
    ensures never_falls { F.faults shelf.old ≤ F.faults shelf.new }
    ensures calm { (held : List ℕ) → F.file shelf.old name.now ≡ content held → F.calm shelf.old →
        F.faults shelf.new ≡ F.faults shelf.old }
{
    let text = take_text(alloc, name, shelf, MAX_PEERS_LEN, ServeStatus::PeersLong)?;
    Ok(read_peers(alloc, text.as_slice())?)
}

/// Takes a file of at most so many octets; `long` is the status of one that has more.
fn take_text<F: Shelf>(
    alloc: Global,
    name: &str,
    shelf: &mut F,
    at_most: usize,
    long: ServeStatus,
) -> Result<Octets, ServeStatus>
    ensures whole { IfOk result (λ octets. IsWhole (F.file shelf.old name.now) octets) }
    ensures short { IfOk result (λ octets. length octets ≤ at_most) }
    ensures ends { IfErr result (λ status. TextEnds (F.file shelf.old name.now) at_most long
        (Rose (F.faults shelf.old) (F.faults shelf.new)) status) }
    ensures same { (other : List ℕ) → F.file shelf.new other ≡ F.file shelf.old other }
    ensures never_falls { F.faults shelf.old ≤ F.faults shelf.new }
    ensures calm { (held : List ℕ) → F.file shelf.old name.now ≡ content held → F.calm shelf.old →
        F.faults shelf.new ≡ F.faults shelf.old }
    ensures stays_calm { F.calm shelf.old → F.calm shelf.new }
{
    match shelf.take(alloc, name, at_most) {
        Ok(text) => Ok(text),
        Err(TakeFault::Failed) => Err(ServeStatus::ReadFault),
        Err(TakeFault::TooLong) => Err(long),
        Err(TakeFault::Memory) => Err(ServeStatus::Memory),
    }
}
