//! What the desk and the workers may do with a conference, of whichever kind.

ghost use Rattle.std.specs.Prelude.{◌≡◌, ◌≤◌, ◌<◌, ◌+◌, ◌↔◌, ◌∷◌, ℕ, List, true, false, ◌==◌, length, OnOk, OnErr, IfOk, IfErr, Err, IsErr, is_ok, ◌^◌, if◌then◌else◌};
ghost use Rattle.std.specs.List.{list_any};
ghost use Rattle.conference_spec.specs.declared.Entry.TheVariants.{Join, Leave, Close, Collect, Cut, End};
ghost use Rattle.conference_spec.specs.Codec.{g726};
ghost use Rattle.conference_spec.specs.Feed.{Feed, closes, collects, ended, kept, joined, listeners};
ghost use Rattle.conference_spec.specs.Packets.{sent};
ghost use Rattle.conference_spec.specs.Tasks.{due};
ghost use Rattle.tick_core.specs.Standing.{TellsOver};
ghost use Rattle.tick_core.specs.declared.faults.JoinFault.TheVariants as join_fault;
ghost use Rattle.tick_core.specs.declared.faults.CloseFault.TheVariants as close_fault;

use crate::book::Book;
use crate::faults::{Absent, CloseFault, JoinFault, NotYet};
use crate::jobs::{Claim, Done, Job};
use crate::packets::Packets;
use conference_spec::JoinSpec;
use talk_mix::Tick;

/// The desk's side of a conference: who joins and leaves, which ticks are closed, and what is handed out.
///
/// Contracts say how the conference's feed goes on: by the call's own entry where it answers Ok, and not at all where it is
/// refused. Histories are read from the newest entry.
pub trait DeskCalls {
    /// What goes with the conference and is changed by none of these calls.
    type Post;

    // It stands for this feed.
    ghost stands: { Self → Feed → Type 0 };

    ghost post: { Self → Self.Post };

    /// A listener joins; the next tick that is closed is its first. Its packets carry 1 to 4 ticks each, as it asks.
    ///
    /// # Errors
    ///
    /// `Used` where a listener of this number has joined before, `Full` where 1,024 are present, then `Memory`.
    fn join(&mut self, spec: JoinSpec) -> Result<(), JoinFault>
        requires before_end { (h : Feed) × stands self.old h × (ended h ≡ false) }
        requires payload_type { spec.pt ≤ 127 }
        requires ticks { (1 ≤ spec.ticks) × (spec.ticks ≤ 4) }
        ensures ok { OnOk result ((h : Feed) → stands self.old h → stands self.new (Join spec ∷ h)) }
        ensures err { OnErr result ((h : Feed) → stands self.old h → stands self.new h) }
        ensures used { (h : Feed) → stands self.old h → (result ≡ Err join_fault.Used) ↔ (list_any (λ m. m == spec.member) (joined h) ≡ true) }
        ensures full { (h : Feed) → stands self.old h → (result ≡ Err join_fault.Full) ↔ ((list_any (λ m. m == spec.member) (joined h) ≡ false) × (length (listeners g726 h) ≡ 1024)) }
        ensures post { post self.new ≡ post self.old };

    /// A listener leaves; its packets of the ticks that are closed already are still made, and what no full packet carries
    /// goes out with the next tick that is closed.
    ///
    /// # Errors
    ///
    /// `Absent` where no listener of this number is present.
    fn leave(&mut self, member: u32) -> Result<(), Absent>
        requires before_end { (h : Feed) × stands self.old h × (ended h ≡ false) }
        ensures ok { OnOk result ((h : Feed) → stands self.old h → stands self.new (Leave member ∷ h)) }
        ensures err { OnErr result ((h : Feed) → stands self.old h → stands self.new h) }
        ensures absent { (h : Feed) → stands self.old h → IsErr result ↔ (list_any (λ l. l.spec.member == member) (listeners g726 h) ≡ false) }
        ensures post { post self.new ≡ post self.old };

    /// Closes a tick with these talkers.
    ///
    /// # Errors
    ///
    /// `TicksOver` where 4,320,000 ticks were closed, `Long` where 18,000 of them were closed since the last cut, `Backlog`
    /// where 64 of them aren't collected, then `Memory`.
    fn close(&mut self, tick: Tick) -> Result<(), CloseFault>
        requires before_end { (h : Feed) × stands self.old h × (ended h ≡ false) }
        ensures ok { OnOk result ((h : Feed) → stands self.old h → stands self.new (Close tick ∷ h)) }
        ensures err { OnErr result ((h : Feed) → stands self.old h → stands self.new h) }
        ensures ticks_over { (h : Feed) → stands self.old h → (result ≡ Err close_fault.TicksOver) ↔ (closes h ≡ 4320000) }
        ensures long { (h : Feed) → stands self.old h → (result ≡ Err close_fault.Long) ↔ ((closes h < 4320000) × (kept h ≡ 18000)) }
        ensures backlog { (h : Feed) → stands self.old h → (result ≡ Err close_fault.Backlog) ↔ ((closes h < 4320000) × (kept h < 18000) × (closes h ≡ collects h + 64)) }
        ensures post { post self.new ≡ post self.old };

    /// Hands out the packets of the next tick.
    ///
    /// # Errors
    ///
    /// `NotYet` where that tick isn't closed, or a listener of it has no payload yet.
    fn collect(&mut self) -> Result<Packets, NotYet>
        requires known { (h : Feed) × stands self.old h }
        ensures tick { IfOk result (λ p. (h : Feed) → stands self.old h → p.tick ≡ collects h) }
        ensures packets { IfOk result (λ p. (h : Feed) → stands self.old h → p.packets ≡ sent g726 (collects h) h) }
        ensures ok { OnOk result ((h : Feed) → stands self.old h → (collects h < closes h) × stands self.new (Collect ∷ h)) }
        ensures err { OnErr result ((h : Feed) → stands self.old h → stands self.new h) }
        ensures post { post self.new ≡ post self.old };

    /// What was done is forgotten, all but what later packets need. It takes no memory.
    fn cut(&mut self)
        requires may_cut { (h : Feed) × stands self.old h × (closes h ≡ collects h) × (0 < kept h) × (ended h ≡ false) }
        ensures cut { (h : Feed) → stands self.old h → stands self.new (Cut ∷ h) }
        ensures post { post self.new ≡ post self.old };

    /// Nothing but collects comes after the end. A second call changes nothing.
    fn end(&mut self)
        requires known { (h : Feed) × stands self.old h }
        ensures end { (h : Feed) → stands self.old h → stands self.new (if ended h then h else End ∷ h) }
        ensures post { post self.new ≡ post self.old };

    /// How many ticks were closed.
    fn closed(&mut self) -> u64
        requires known { (h : Feed) × stands self.old h }
        ensures value { (h : Feed) → stands self.old h → result ≡ closes h }
        ensures stands { (h : Feed) → stands self.old h → stands self.new h }
        ensures post { post self.new ≡ post self.old };

    /// How many ticks were collected.
    fn collected(&mut self) -> u64
        requires known { (h : Feed) × stands self.old h }
        ensures value { (h : Feed) → stands self.old h → result ≡ collects h }
        ensures stands { (h : Feed) → stands self.old h → stands self.new h }
        ensures post { post self.new ≡ post self.old };

    /// How many ticks were closed since the last cut.
    fn kept(&mut self) -> u64
        requires known { (h : Feed) × stands self.old h }
        ensures value { (h : Feed) → stands self.old h → result ≡ kept h }
        ensures stands { (h : Feed) → stands self.old h → stands self.new h }
        ensures post { post self.new ≡ post self.old };

    /// How many encoder runs were made; where all closed ticks were collected, one for each different triple of each tick.
    fn issued(&mut self) -> u64
        requires known { (h : Feed) × stands self.old h }
        ensures value { (h : Feed) → stands self.old h → collects h ≡ closes h → result ≡ due g726 h }
        ensures stands { (h : Feed) → stands self.old h → stands self.new h }
        ensures post { post self.new ≡ post self.old };
}

impl DeskCalls for Book {
    ghost use Rattle.tick_core.specs.Standing.{WentThrough};

    type Post = ();

    ghost stands = { WentThrough };

    ghost post = { λ b. tt };

    fn join(&mut self, spec: JoinSpec) -> Result<(), JoinFault> {
        Book::join(self, spec)
    }

    fn leave(&mut self, member: u32) -> Result<(), Absent> {
        Book::leave(self, member)
    }

    fn close(&mut self, tick: Tick) -> Result<(), CloseFault> {
        Book::close(self, tick)
    }

    fn collect(&mut self) -> Result<Packets, NotYet> {
        Book::collect(self)
    }

    fn cut(&mut self) {
        Book::cut(self);
    }

    fn end(&mut self) {
        Book::end(self);
    }

    fn closed(&mut self) -> u64 {
        Book::closed(self)
    }

    fn collected(&mut self) -> u64 {
        Book::collected(self)
    }

    fn kept(&mut self) -> u64 {
        Book::kept(self)
    }

    fn issued(&mut self) -> u64 {
        Book::issued(self)
    }
}

/// The workers' side of a conference: runs are claimed, and published or given back.
///
/// Contracts count the results that were taken.
pub trait Turns {
    /// What guards the conference.
    type Lock;

    // It may be asked.
    ghost ready: { Self → Type 0 };

    // Nothing but results and collects will come.
    ghost over: { Self → Type 0 };

    // So many results were taken.
    ghost taken: { Self → ℕ → Type 0 };

    ghost home: { Self → List Self.Lock };

    /// Claims the waiting run of the least number.
    fn claim(&mut self) -> Claim
        requires ready { ready self.old }
        ensures ready { ready self.new }
        ensures over { TellsOver result (over self.new) }
        ensures taken { (n : ℕ) → taken self.old n → taken self.new n }
        ensures home { home self.new ≡ home self.old };

    /// Takes the result of a run that is out.
    ///
    /// # Errors
    ///
    /// The Done comes back where no run of its number, tick and triple is out.
    fn publish(&mut self, done: Done) -> Result<(), Done>
        requires ready { ready self.old }
        ensures ready { ready self.new }
        ensures taken { (n : ℕ) → taken self.old n → taken self.new (n + (if is_ok result then 1 else 0)) }
        ensures fits { (n : ℕ) → taken self.new n → n < 2 ^ 64 }
        ensures comes_back { IfErr result (λ d. d ≡ done) }
        ensures home { home self.new ≡ home self.old };

    /// Takes a job back that wasn't run.
    ///
    /// # Errors
    ///
    /// The Job comes back where no run of its number, tick and triple is out.
    fn give_back(&mut self, job: Job) -> Result<(), Job>
        requires ready { ready self.old }
        ensures ready { ready self.new }
        ensures taken { (n : ℕ) → taken self.old n → taken self.new n }
        ensures comes_back { IfErr result (λ j. j ≡ job) }
        ensures home { home self.new ≡ home self.old };
}

impl Turns for Book {
    ghost use Rattle.std.specs.Prelude.{[]};
    ghost use Rattle.tick_core.specs.Standing.{IsKnown, IsOver, HasTaken};

    type Lock = ();

    ghost ready = { IsKnown };

    ghost over = { IsOver };

    ghost taken = { HasTaken };

    ghost home = { λ b. [] };

    fn claim(&mut self) -> Claim {
        Book::claim(self)
    }

    fn publish(&mut self, done: Done) -> Result<(), Done> {
        Book::publish(self, done)
    }

    fn give_back(&mut self, job: Job) -> Result<(), Job> {
        Book::give_back(self, job)
    }
}
