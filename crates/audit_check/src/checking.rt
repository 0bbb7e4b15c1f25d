//! A Book whose packets are compared with octets as they are handed out: the conference of an audit.
ghost use Rattle.std.specs.Prelude.{◌≡◌, ◌<◌, ◌≤◌, ◌+◌, ◌++◌, ℕ, List, [], All, length, map};
ghost use Rattle.conference_spec.specs.Codec.{g726};
ghost use Rattle.conference_spec.specs.Feed.{Feed};
ghost use Rattle.conference_spec.specs.Packets.{Sending, rest};
ghost use Rattle.desk_run.specs.BookSide.{StandsFor, IsEven};
ghost use Rattle.desk_run.specs.Handing.{sent_from, IsSendable};
ghost use Rattle.audit_check.specs.Difference.{Judges};
ghost use Rattle.audit_check.specs.Sendings.{sendings_to, sent_in};
ghost use Rattle.audit_check.specs.Comparing.{Checks, Compared, HasCompared};

use crate::compare::{Compare, Difference};
use conference_spec::JoinSpec;
use desk_run::{Audience, Conference};
use edge_io::{Memory, Octets};
use std::alloc::Global;
use talk_mix::Tick;
use tick_core::{Book, Packets};

/// A Book, and octets that are compared with what it hands out.
#[derive(Drop)]
pub(crate) struct Checking {
    book: Book,
    compare: Compare,
}

impl Checking {
    /// A Book that nothing has happened to, and the octets.
    pub(crate) fn new(alloc: Global, out: Octets) -> Checking
        ensures out { result.compare.out ≡ out }
        ensures checks { Checks result [] 0 }
    {
        Checking {
            book: Book::new(alloc),
            compare: Compare::new(out),
        }
    }

    /// Compares what is left after so many ticks, and says where the octets first differ from the whole answer.
    pub(crate) fn finish(&mut self, ticks: u32) -> Option<Difference>
        requires stands { (h : Feed) × Checks self.old h ticks }
        requires short { ticks ≤ 4320000 }
        ensures judged { (h : Feed) → Checks self.old h ticks →
            Judges self.old.compare.out (sendings_to ticks h ++ sent_in ticks (rest g726 h)) result }
    {
        take_rest(&self.book, &mut self.compare);
        self.compare.end()
    }
}

/// Compares the packets of the next ticks.
fn take_ticks(compare: &mut Compare, ticks: &[Packets])
    requires begun { HasCompared compare.old }
    requires early { compare.old.ticks + length ticks.now ≤ 4320000 }
    requires sendable { All (λ t. IsSendable t.packets) ticks.now }
    ensures out { compare.new.out ≡ compare.old.out }
    ensures ticks { compare.new.ticks ≡ compare.old.ticks + length ticks.now }
    ensures compared { (h : Feed) → map (λ t. t.packets) ticks.now ≡ sent_from compare.old.ticks (length ticks.now) h →
        Compared compare.old (sendings_to compare.old.ticks h) → Compared compare.new (sendings_to compare.new.ticks h) }
{
    for packets in ticks {
        compare.take_tick(packets);
    }
}

/// Compares what is left after the last tick.
fn take_rest(book: &Book, compare: &mut Compare)
    requires even { IsEven book.now }
    requires begun { HasCompared compare.old }
    requires short { compare.old.ticks ≤ 4320000 }
    ensures out { compare.new.out ≡ compare.old.out }
    ensures compared { (h : Feed) (ss : List Sending) → StandsFor book.now h → Compared compare.old ss →
        Compared compare.new (ss ++ sent_in compare.old.ticks (rest g726 h)) }
{
    for i in 0..book.rests() {
        compare.take(&book.rest(i));
    }
}

impl Audience for Checking {
    ghost use Rattle.audit_check.specs.Comparing.{Checks};

    type Post = Octets;

    ghost stands = { Checks };

    ghost post = { λ c. c.compare.out };

    fn join(&mut self, spec: JoinSpec) -> Result<(), Memory> {
        Audience::join(&mut self.book, spec)
    }

    fn leave(&mut self, member: u32) {
        Audience::leave(&mut self.book, member);
    }
}

impl Conference for Checking {
    /// Lets the Book close the tick and hand it out, and compares its packets.
    fn encode(&mut self, alloc: Global, tick: Tick) -> Result<Vec<Packets>, Memory> {
        let ticks = Conference::encode(&mut self.book, alloc, tick)?;
        take_ticks(&mut self.compare, &ticks);
        Ok(ticks)
    }

    /// No tick is left to be handed out.
    fn next(&mut self) -> Option<Packets> {
        None
    }

    fn cut(&mut self) {
        Conference::cut(&mut self.book);
    }
}
