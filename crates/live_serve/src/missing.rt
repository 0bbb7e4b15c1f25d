//! Who listens and has no peer.
ghost use Rattle.std.specs.Prelude.{◌≡◌};
ghost use Rattle.udp_edge.specs.Known.{peer_at};
ghost use Rattle.live_serve.specs.Asked.{missing_at, first_missing};

use roster_text::{Command, Roster};
use udp_edge::Peers;

/// The member of the first command by which somebody comes to listen who has no peer.
pub(crate) fn first_missing(roster: &Roster, peers: &Peers) -> Option<u32>
    ensures { result ≡ first_missing (peer_at peers.now) roster.now.timed }
{
    for i in 0..roster.len() {
        if let Some(member) = missing_at(roster.timed(i).command, peers) {
            return Some(member);
        }
    }
    None
}

/// The member that comes to listen by this command, where it has no peer.
fn missing_at(command: Command, peers: &Peers) -> Option<u32>
    ensures { result ≡ missing_at (peer_at peers.now) command }
{
    match command {
        Command::Join {
            member,
            listen: Some(_),
            ..
        } => match peers.find(member) {
            Some(_) => None,
            None => Some(member),
        },
        Command::Join { listen: None, .. } | Command::Leave { .. } => None,
    }
}
