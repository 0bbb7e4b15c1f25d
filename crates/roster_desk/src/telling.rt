//! What a conference is told of a command.
ghost use Rattle.std.specs.Prelude.{◌≡◌, ◌∷◌, ℕ, OnOk};
ghost use Rattle.session_spec.specs.Talkers.{Events, Applies};
ghost use Rattle.session_spec.specs.Events.{feed_of, spec_of};
ghost use Rattle.roster_desk.specs.Applied.{MayListen};

use conference_spec::JoinSpec;
use desk_run::Audience;
use edge_io::Memory;
use roster_text::{Command, Listen};

/// Tells a conference of a command: of a listener that joins, and of whoever leaves.
///
/// # Errors
///
/// `Memory` where the conference had no memory. Then nothing is said of it.
pub(crate) fn tell<A: Audience>(command: Command, audience: &mut A) -> Result<(), Memory>
    requires { (h : Events) × (n : ℕ) × MayListen h command × A.stands audience.old (feed_of h) n }
    ensures stands { OnOk result ((h : Events) (n : ℕ) → A.stands audience.old (feed_of h) n → A.stands audience.new (feed_of (Applies command ∷ h)) n) }
    ensures post { A.post audience.new ≡ A.post audience.old }
{
    match command {
        Command::Join { member, listen, .. } => match listen {
            Some(listen) => audience.join(spec_for(member, listen)),
            None => Ok(()),
        },
        Command::Leave { member } => {
            audience.leave(member);
            Ok(())
        }
    }
}

/// What a member that listens asks a conference for.
fn spec_for(member: u32, listen: Listen) -> JoinSpec
    ensures { result ≡ spec_of member listen }
{
    JoinSpec {
        member,
        rate: listen.rate,
        pt: listen.pt,
        ssrc: listen.ssrc,
        first_seq: listen.first_seq,
        first_stamp: listen.first_stamp,
        ticks: listen.ticks,
    }
}
