//! What a session needs, from the words and the files that they name.
ghost use Rattle.std.specs.Prelude.{◌≡◌, ℕ, List, None, IfOk, IfErr, IfSome, IsErrOf};
ghost use Rattle.edge_io.specs.Told.{Rose};
ghost use Rattle.edge_io.specs.File.{content};
ghost use Rattle.live_serve.specs.CommandLine.{form_of};
ghost use Rattle.live_serve.specs.Steps.{IsReady, Stops};

use crate::files::{take_peers, take_roster};
use crate::form::form_of;
use crate::missing::first_missing;
use crate::status::ServeStatus;
use edge_io::{Shelf, Words};
use roster_text::Roster;
use std::alloc::Global;
use udp_edge::Peers;

/// A session that can be run: the port, the roster, and who is sent packets where.
#[derive(Drop)]
pub(crate) struct Prepared {
    pub(crate) port: u16,
    pub(crate) roster: Roster,
    pub(crate) peers: Peers,
}

/// Takes the words, the roster and the peers, in this order, and sees that all who listen have a peer.
pub(crate) fn prepare<F: Shelf>(
    alloc: Global,
    words: &Words,
    shelf: &mut F,
) -> Result<Prepared, ServeStatus>
    ensures usage { form_of words.now ≡ None → IsErrOf result ServeStatus.Usage × (shelf.new ≡ shelf.old) }
    ensures port { IfOk result (λ prepared. IfSome (form_of words.now) (λ form. form.port ≡ prepared.port)) }
    ensures ready { IfOk result (λ prepared. IsReady (form_of words.now) (F.file shelf.old) prepared) }
    ensures stops { IfErr result (λ status.
        Stops (form_of words.now) (F.file shelf.old) (Rose (F.faults shelf.old) (F.faults shelf.new)) status) }
    ensures calm { IfSome (form_of words.now) (λ form. (roster peers : List ℕ) → F.file shelf.old form.roster ≡ content roster →
        F.file shelf.old form.peers ≡ content peers → F.calm shelf.old → F.faults shelf.new ≡ F.faults shelf.old) }
{
    let Some(form) = form_of(words) else {
        return Err(ServeStatus::Usage);
    };
    let roster = take_roster(alloc, form.roster, shelf)?;
    let peers = take_peers(alloc, form.peers, shelf)?;
    if let Some(member) = first_missing(&roster, &peers) {
        return Err(ServeStatus::PeerMissing { member });
    }
    let port = form.port;
    Ok(Prepared {
        port,
        roster,
        peers,
    })
}
