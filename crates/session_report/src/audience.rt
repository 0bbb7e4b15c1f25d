//! A Book whose ticks and listeners are noted: the conference of a report.
ghost use Rattle.std.specs.Prelude.{◌≡◌, []};
ghost use Rattle.session_account.specs.Speaking.{muted};
ghost use Rattle.session_report.specs.Noting.{Notes};

use crate::encoding::encode;
use conference_spec::JoinSpec;
use desk_run::{Audience, Conference};
use edge_io::Memory;
use session_account::{Runs, Visits, Voices};
use std::alloc::Global;
use talk_mix::Tick;
use tick_core::{Book, Packets};

/// A Book, who listened to it, who was heard, and what was encoded.
#[derive(Drop)]
pub(crate) struct Noting {
    pub(crate) book: Book,
    pub(crate) visits: Visits,
    pub(crate) voices: Voices,
    pub(crate) runs: Runs,
}

impl Noting {
    /// A Book that nothing has happened to, and talkers that weren't heard yet. Takes no memory.
    pub(crate) fn new(alloc: Global, voices: Voices) -> Noting
        requires { muted voices ≡ voices }
        ensures voices { result.voices ≡ voices }
        ensures notes { Notes result [] 0 }
    {
        Noting {
            book: Book::new(alloc),
            visits: Visits::new(alloc),
            voices,
            runs: Runs::none(),
        }
    }
}

impl Audience for Noting {
    type Post = Voices;

    ghost stands = { Notes };

    // The talkers stay, whatever is heard of them.
    ghost post = { λ c. muted c.voices };

    fn join(&mut self, spec: JoinSpec) -> Result<(), Memory> {
        Audience::join(&mut self.book, spec)?;
        self.visits.join(spec)
    }

    fn leave(&mut self, member: u32) {
        Audience::leave(&mut self.book, member);
        self.visits.leave(member);
    }
}

impl Conference for Noting {
    /// Lets the Book close the tick and hand it out, and notes its runs and who is heard.
    fn encode(&mut self, alloc: Global, tick: Tick) -> Result<Vec<Packets>, Memory> {
        let ticks = encode(alloc, &mut self.book, &mut self.runs, tick)?;
        self.visits.close()?;
        self.voices.note(&tick)?;
        Ok(ticks)
    }

    /// No tick is left to be handed out.
    fn next(&mut self) -> Option<Packets> {
        None
    }

    fn cut(&mut self) {
        Conference::cut(&mut self.book);
    }
}
