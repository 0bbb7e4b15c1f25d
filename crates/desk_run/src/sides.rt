//! What a session is generic over: the desk, and the conference with those who listen to it.
ghost use Rattle.std.specs.Prelude.{◌≡◌, ◌+◌, ◌-◌, ◌^◌, min, ◌<◌, ◌≤◌, ◌⊎◌, ◌∷◌, ℕ, List, None, true, false, map, IfOk, IfSome, IsSome, OnOk, All, length};
ghost use Rattle.roster_text.specs.declared.commands.Timed.{Timed};
ghost use Rattle.conference_spec.specs.declared.Entry.TheVariants.{Join, Close, Collect, Cut};
ghost use Rattle.conference_spec.specs.Codec.{g726};
ghost use Rattle.conference_spec.specs.Feed.{Feed, closes, collects, ended, kept, may_follow};
ghost use Rattle.conference_spec.specs.Packets.{sent};
ghost use Rattle.session_spec.specs.Talkers.{Events, Hears, Ticks, talkers, arrival, heard_now};
ghost use Rattle.session_spec.specs.Events.{feed_of, refused, commands_of, after_commands, after_cut};
ghost use Rattle.desk_run.specs.Handing.{leaving, sent_from, IsSendable};

use conference_spec::JoinSpec;
use edge_io::Memory;
use session_spec::Arrival;
use std::alloc::Global;
use talk_mix::Tick;
use tick_core::Packets;

/// Those who listen to a conference.
pub trait Audience {
    /// What goes with the conference and is changed by none of its calls.
    type Post;

    // The session's feed is this, and so many of its ticks were handed out. In a session's feed each tick is collected when it
    // is closed; where its collect really comes is the conference's affair.
    ghost stands: { Self → Feed → ℕ → Type 0 };

    ghost post: { Self → Self.Post };

    /// Lets a listener join. Its first tick is the next to be closed.
    ///
    /// # Errors
    ///
    /// `Memory` where there was no memory. Then nothing is said of the feed.
    fn join(&mut self, spec: JoinSpec) -> Result<(), Memory>
        requires lawful { spec.pt ≤ 127 }
        requires ticks { (1 ≤ spec.ticks) × (spec.ticks ≤ 4) }
        requires stands { (h : Feed) × (n : ℕ) × stands self.old h n × (may_follow g726 h (Join spec) ≡ true) }
        ensures stands { OnOk result ((h : Feed) (n : ℕ) → stands self.old h n → stands self.new (Join spec ∷ h) n) }
        ensures post { post self.new ≡ post self.old };

    /// Lets a member go, if it listens. It is still sent what ticks that were closed have for it: what no full packet carries
    /// goes out with the next tick that is closed, or is left where there is none.
    fn leave(&mut self, member: u32)
        requires { (h : Feed) × (n : ℕ) × stands self.old h n × (ended h ≡ false) }
        ensures stands { (h : Feed) (n : ℕ) → stands self.old h n → stands self.new (leaving member h) n }
        ensures post { post self.new ≡ post self.old };
}

/// A conference: it is told of ticks, and hands out the packets of each.
pub trait Conference: Audience {
    /// Closes a tick with these talkers, and hands out the ticks that are ready, in order.
    ///
    /// # Errors
    ///
    /// `Memory` where there was no memory. Then nothing is said of the feed.
    fn encode(&mut self, alloc: Global, tick: Tick) -> Result<Vec<Packets>, Memory>
        requires { (h : Feed) × (n : ℕ) × Self.stands self.old h n × (ended h ≡ false) × (closes h < 4320000) × (kept h < 18000)
            × (collects h ≡ closes h) × (n ≤ closes h) }
        ensures packets { IfOk result (λ ticks. (h : Feed) (n : ℕ) → Self.stands self.old h n →
            map (λ t. t.packets) ticks.items ≡ sent_from n (length ticks.items) (Close tick ∷ h)) }
        ensures stands { IfOk result (λ ticks. (h : Feed) (n : ℕ) → Self.stands self.old h n →
            (n + length ticks.items ≤ closes h + 1) × Self.stands self.new (Collect ∷ Close tick ∷ h) (n + length ticks.items)) }
        ensures sendable { IfOk result (λ ticks. All (λ t. IsSendable t.packets) ticks.items) }
        ensures post { Self.post self.new ≡ Self.post self.old };

    /// Hands out the next tick, and waits for it; `None` where each tick that was closed was handed out.
    fn next(&mut self) -> Option<Packets>
        requires { (h : Feed) × (n : ℕ) × Self.stands self.old h n }
        ensures there { (h : Feed) (n : ℕ) → Self.stands self.old h n → n < closes h → IsSome result }
        ensures none { (h : Feed) (n : ℕ) → Self.stands self.old h n → closes h ≤ n → result ≡ None }
        ensures packets { IfSome result (λ packets. (h : Feed) (n : ℕ) → Self.stands self.old h n → packets.packets ≡ sent g726 n h) }
        ensures stands { (h : Feed) (n : ℕ) → Self.stands self.old h n → n < closes h → Self.stands self.new h (n + 1) }
        ensures sendable { IfSome result (λ packets. IsSendable packets.packets) }
        ensures post { Self.post self.new ≡ Self.post self.old };

    /// Forgets what was collected, all but what later packets need: for when each tick that was closed was handed out.
    fn cut(&mut self)
        requires { (h : Feed) × (n : ℕ) × Self.stands self.old h n × (n ≡ closes h) × (may_follow g726 h Cut ≡ true) }
        ensures stands { (h : Feed) (n : ℕ) → Self.stands self.old h n → n ≡ closes h → Self.stands self.new (Cut ∷ h) n }
        ensures post { Self.post self.new ≡ Self.post self.old };
}

/// A desk: the roster's commands, and the lines of the members that talk.
pub trait DeskSide {
    // The roster's commands.
    ghost plan: { Self → List Timed };

    // This happened at the desk, and a tick begins: its commands are next.
    ghost begins: { Self → Events → Type 0 };

    // This happened at the desk, and the commands of the tick that runs were applied.
    ghost stands: { Self → Events → Type 0 };

    /// Applies the commands of a tick, those of listeners to the conference too. Where the tick begins with a cut, the
    /// conference was cut just before.
    ///
    /// # Errors
    ///
    /// `Memory` where there was no memory. Then nothing is said of the desk and of the feed.
    fn commands<A: Audience>(
        &mut self,
        alloc: Global,
        tick: u32,
        audience: &mut A,
    ) -> Result<(), Memory>
        requires stands { (h : Events) × (n : ℕ) × begins self.old h × (closes (feed_of h) ≡ tick) × A.stands audience.old (feed_of (after_cut tick h)) n }
        requires early { tick < 4320000 }
        ensures plan { plan self.new ≡ plan self.old }
        ensures stands { OnOk result ((h : Events) (n : ℕ) → begins self.old h → closes (feed_of h) ≡ tick →
            A.stands audience.old (feed_of (after_cut tick h)) n →
            stands self.new (after_commands (commands_of (plan self.old) tick) (after_cut tick h))
            × A.stands audience.new (feed_of (after_commands (commands_of (plan self.old) tick) (after_cut tick h))) n) }
        ensures post { A.post audience.new ≡ A.post audience.old };

    /// Takes octets that arrived, of a packet that had `plen` on the wire, and says what became of them.
    fn arrive(&mut self, plen: u16, octets: &[u8]) -> Arrival
        requires { (0 < plen) × (length octets.now ≤ 65527) }
        ensures plan { plan self.new ≡ plan self.old }
        ensures answer { (h : Events) → stands self.old h → result ≡ arrival (talkers h) plen octets.now }
        ensures stands { (h : Events) → stands self.old h → stands self.new (Hears plen octets.now ∷ h) };

    /// Ends a tick: pulls a frame from each line, and says who is heard.
    fn frames(&mut self) -> Tick
        requires { (h : Events) × stands self.old h }
        ensures plan { plan self.new ≡ plan self.old }
        ensures heard { (h : Events) → stands self.old h → result ≡ heard_now h }
        ensures begins { (h : Events) → stands self.old h → begins self.new (Ticks ∷ h) };

    /// How many arrivals weren't accepted. The count stops at 2^64 - 1.
    fn refused(&self) -> u64
        ensures count { (h : Events) → begins self.now h ⊎ stands self.now h → result ≡ min (refused h) (2 ^ 64 - 1) };
}
