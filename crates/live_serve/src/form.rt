//! The words of the program.
ghost use Rattle.std.specs.Prelude.{◌≡◌, IfSome, Some, is_none};
ghost use Rattle.live_serve.specs.CommandLine.{form_of};

use edge_io::Words;
use program_edge::{decimal, is_plain_word};

/// The greatest port.
const GREATEST_PORT: u32 = 65_535;

/// What the words ask for: the port to listen at, and the names of the two files.
#[derive(Clone, Copy)]
pub(crate) struct Form<'a> {
    pub(crate) port: u16,
    pub(crate) peers: &'a str,
    pub(crate) roster: &'a str,
}

/// What the words `PORT PEERS ROSTER` ask for; `None` where they are others. Takes no memory.
pub(crate) fn form_of<'a>(words: &'a Words) -> Option<Form<'a>>
    ensures some { IfSome result (λ form.
        form_of words.entry.now ≡ Some (record { port = form.port; peers = form.peers.now; roster = form.roster.now })) }
    ensures none { is_none result ≡ is_none (form_of words.entry.now) }
{
    if words.len() != 3 {
        return None;
    }
    let port = decimal(words.word(0), GREATEST_PORT)?;
    let peers = words.word(1);
    let roster = words.word(2);
    if !is_plain_word(peers) || !is_plain_word(roster) {
        return None;
    }
    Some(Form {
        port: port as u16,
        peers,
        roster,
    })
}
