//! Who is sent packets where: a text of lines, each a member, an address and a port.
ghost use Rattle.std.specs.Prelude.{◌≡◌, ◌≤◌, ◌==◌, ℕ, Some, List, length, if◌then◌else◌, IfOk, OnOk};
ghost use Rattle.roster_text.specs.Lines.{words_of};
ghost use Rattle.roster_text.specs.Lent.{texts};
ghost use Rattle.udp_edge.specs.declared.listed.Listed.{Listed};
ghost use Rattle.udp_edge.specs.Peers.{said_by, peers_in};
ghost use Rattle.udp_edge.specs.Known.{peer_at, Knows, Steps, Answers};

use crate::address::{address, port};
use crate::listed::Listed;
use crate::peer::Peer;
use roster_text::{number, skips, split_line, split_words};
use std::alloc::{AllocError, Global};
use std::collections::HashMap;

/// What is wrong with a line. Of several faults a line has the first in this order.
#[derive(Clone, Copy, Debug, PartialEq, Eq)]
pub enum PeerKind {
    /// The line hasn't three words.
    Words,
    /// The member isn't a number up to 4,294,967,295, or the port none from 1 to 65,534.
    Number,
    /// The address isn't four numbers up to 255, of 1 to 3 digits each, parted by dots.
    Address,
    /// The member stands in a line before.
    Used,
}

/// Why there are no peers.
#[derive(Clone, Copy, Debug, PartialEq, Eq)]
pub enum PeersError {
    /// The first bad line, counted from 1 with skipped lines included, and what is wrong with it.
    Bad { line: u32, kind: PeerKind },
    /// There was no memory.
    Memory,
}

impl From<AllocError> for PeersError {
    ghost use Rattle.udp_edge.specs.declared.peers.PeersError.TheVariants.{Memory as no_memory};

    ghost from_gives = { λ _ error. error ≡ no_memory };

    fn from(_error: AllocError) -> PeersError {
        PeersError::Memory
    }
}

/// Where members are sent packets. Contracts see the peer of each member.
#[derive(Drop)]
pub struct Peers {
    table: HashMap<u32, Peer>,
}

impl Peers {
    /// The member's peer; `None` where no line names the member. Takes no memory.
    pub fn find(&self, member: u32) -> Option<Peer>
        ensures { result ≡ peer_at self.now member }
    {
        self.table.get(&member).copied()
    }

    /// Learns a line. The answer is what is wrong with it; then, and after want of memory, the peers are of no more use.
    fn step(&mut self, alloc: Global, line: &[u8]) -> Result<Option<PeerKind>, AllocError>
        ensures { IfOk result (λ fault. (listed : List Listed) → Knows self.old listed → Steps self.new listed (words_of line.now) fault) }
    {
        let words = split_words(alloc, line)?;
        if skips(words.as_slice()) {
            return Ok(None);
        }
        let listed = match read_words(words.as_slice()) {
            Ok(listed) => listed,
            Err(kind) => return Ok(Some(kind)),
        };
        if self.find(listed.member).is_some() {
            return Ok(Some(PeerKind::Used));
        }
        self.put(listed)?;
        Ok(None)
    }

    /// Puts a member's peer in.
    fn put(&mut self, listed: Listed) -> Result<(), AllocError>
        ensures { OnOk result ((q : ℕ) → peer_at self.new q ≡ (if listed.member == q then Some listed.peer else peer_at self.old q)) }
    {
        self.table.insert(listed.member, listed.peer)?;
        Ok(())
    }
}

/// What a line of these words says, or what is wrong with it by itself.
fn read_words(words: &[&[u8]]) -> Result<Listed, PeerKind>
    ensures { result ≡ said_by (texts words.now) }
{
    match words {
        [member, addr, port_word] => {
            let member = number(member, u32::MAX).ok_or(PeerKind::Number)?;
            let port = port(port_word).ok_or(PeerKind::Number)?;
            let addr = address(addr).ok_or(PeerKind::Address)?;
            let peer = Peer { addr, port };
            Ok(Listed { member, peer })
        }
        _ => Err(PeerKind::Words),
    }
}

/// Reads peers from a text of at most 1,048,576 octets. Lines and words are parted, and lines skipped, as in a roster.
///
/// # Errors
///
/// `Bad` exactly at the first bad line, with what is wrong with it; `Memory` where there was no memory.
pub fn read_peers(alloc: Global, bytes: &[u8]) -> Result<Peers, PeersError>
    requires { length bytes.now ≤ 1048576 }
    ensures { Answers result (peers_in bytes.now) }
{
    let mut peers = Peers {
        table: HashMap::new(alloc),
    };
    let mut rest = bytes;
    let mut line: u32 = 1;
    while let Some((text, after)) = split_line(rest) {
        if let Some(kind) = peers.step(alloc, text)? {
            return Err(PeersError::Bad { line, kind });
        }
        rest = after;
        line += 1;
    }
    Ok(peers)
}
