//! Laws over the definitions: each is the contract of a function that does nothing.

ghost use Rattle.std.specs.Prelude.{◌≡◌, ℕ, ℤ, true, false, ◌+◌, ◌*◌, ◌<◌, ◌≤◌, List, [], ◌∷◌, ◌++◌, length, map, filter, take, drop, reverse, Contains, Some};
ghost use Rattle.std.specs.List.{flat_map, AllZip};
ghost use Rattle.talk_mix.specs.declared.ticks.Tick.{Tick};
ghost use Rattle.g726_bits.specs.declared.Rate.{Rate};
ghost use Rattle.g726_bits.specs.State.{CodecState};
ghost use Rattle.conference_spec.specs.declared.Entry.{Entry};
ghost use Rattle.conference_spec.specs.declared.Task.{Task};
ghost use Rattle.conference_spec.specs.Coding.{Coder, Tells, after, after_all, payloads_of, payloads_heard};
ghost use Rattle.conference_spec.specs.Codec.{g726};
ghost use Rattle.conference_spec.specs.declared.Entry.TheVariants.{Close};
ghost use Rattle.conference_spec.specs.Feed.{Feed, Listener, Guest, WasThere, is_at, is_sent_at, closes, collects, ended, kept, listeners, guests, before, talkers, until, may_follow};
ghost use Rattle.conference_spec.specs.Packets.{packets, packets_at, packet_with, own_payloads, payloads_a_packet, sent};
ghost use Rattle.conference_spec.specs.Machine.{Core, Event, Enters, Publish, GiveBack, accepts, entered, holds_out, next, next_waiting, core_after, has_passed};
ghost use Rattle.conference_spec.specs.Kept.{Holds, WaitsForOne};
ghost use Rattle.conference_spec.specs.Base.{IsCut, Agree, AreTwins, added, base};

/// An encoder that goes on after some frames is one that is begun in the state that they leave.
pub fn alone_goes_on()
    ensures state { (coder : Coder) (rate : Rate) (s : CodecState) (a c : List (List ℤ)) →
        after_all coder rate s (a ++ c) ≡ after_all coder rate (after_all coder rate s a) c }
    ensures payloads { (coder : Coder) (rate : Rate) (s : CodecState) (a c : List (List ℤ)) →
        payloads_of coder rate s (a ++ c) ≡ payloads_of coder rate s a ++ payloads_of coder rate (after_all coder rate s a) c }
{}

/// What was heard, kept with the newest frame first, leaves the state and the payloads of an encoder alone.
pub fn heard_is_alone()
    ensures state { (coder : Coder) (rate : Rate) (s : CodecState) (heard : List (List ℤ)) →
        after coder rate s heard ≡ after_all coder rate s (reverse heard) }
    ensures payloads { (coder : Coder) (rate : Rate) (s : CodecState) (heard : List (List ℤ)) →
        reverse (payloads_heard coder rate s heard) ≡ payloads_of coder rate s (reverse heard) }
{}

/// The listeners of tick k are those who came when at most k ticks were closed and left, if ever, when more than k were,
/// in the order of their joins. Each stands among the guests with its mix of that tick right after what it had heard before.
pub fn listeners_of_a_tick()
    ensures specs { (coder : Coder) (k : ℕ) (h : Feed) → k < closes h →
        map (λ l. l.spec) (listeners coder (before k h)) ≡ map (λ g. g.listener.spec) (filter (is_at k (closes h)) (guests coder h)) }
    ensures as_they_were { (coder : Coder) (k : ℕ) (h : Feed) (tick : Tick) → talkers k h ≡ Some tick →
        AllZip (WasThere tick) (filter (is_at k (closes h)) (guests coder h)) (listeners coder (before k h)) }
{}

/// What a listener is sent at each tick, where its packets carry b payloads, it came when `from` ticks were closed and has
/// heard n ticks.
///
/// The i-th packet is sent with the last of its b ticks, and carries the payloads that an encoder of its own made of them;
/// no tick before sends any of them. What is left after n ticks goes out as a shorter packet at tick `from + n`, which
/// sends nothing where nothing is left. No tick before its join or after that one sends anything. All its packets together
/// carry all payloads of its encoder, in order and once each.
pub fn packets_of_a_listener()
    ensures full { (coder : Coder) (l : Listener) (i j : ℕ) → j < length l.heard →
        j + 1 ≡ payloads_a_packet l.spec * i + payloads_a_packet l.spec →
        packets_at coder (l.from + j) l
        ≡ packet_with l.spec i (drop (payloads_a_packet l.spec * i) (take (j + 1) (own_payloads coder l))) ∷ [] }
    ensures waits { (coder : Coder) (l : Listener) (i j : ℕ) → j < length l.heard →
        payloads_a_packet l.spec * i ≤ j → j + 1 < payloads_a_packet l.spec * i + payloads_a_packet l.spec →
        packets_at coder (l.from + j) l ≡ [] }
    ensures last { (coder : Coder) (l : Listener) (i : ℕ) → payloads_a_packet l.spec * i < length l.heard →
        length l.heard < payloads_a_packet l.spec * i + payloads_a_packet l.spec →
        packets_at coder (l.from + length l.heard) l
        ≡ packet_with l.spec i (drop (payloads_a_packet l.spec * i) (own_payloads coder l)) ∷ [] }
    ensures none_left { (coder : Coder) (l : Listener) (i : ℕ) → length l.heard ≡ payloads_a_packet l.spec * i →
        packets_at coder (l.from + length l.heard) l ≡ [] }
    ensures early { (coder : Coder) (l : Listener) (k : ℕ) → k < l.from → packets_at coder k l ≡ [] }
    ensures late { (coder : Coder) (l : Listener) (k : ℕ) → l.from + length l.heard < k → packets_at coder k l ≡ [] }
    ensures whole { (coder : Coder) (l : Listener) → flat_map (λ s. s.packet.payload) (packets coder l) ≡ own_payloads coder l }
{}

/// The packets of a tick are those of the guests who listened then or had left since the tick before, in the order of their
/// joins. A guest has heard one mix for each tick from its join to its leave, so what no full packet of a leaver carries is
/// sent with the tick that is closed next after its leave, or left over where none is.
pub fn packets_of_a_tick()
    ensures sent { (coder : Coder) (k : ℕ) (h : Feed) →
        sent coder k h ≡ flat_map (λ g. packets_at coder k g.listener) (filter (is_sent_at k h) (guests coder h)) }
    ensures heard { (coder : Coder) (h : Feed) (g : Guest) → Contains (guests coder h) g →
        until h g ≡ g.listener.from + length g.listener.heard }
{}

/// What was sent with a closed tick stays, whatever comes after.
pub fn packets_stay()
    ensures { (coder : Coder) (k : ℕ) (since h : Feed) → k < closes h → sent coder k (since ++ h) ≡ sent coder k h }
{}

/// Payloads depend on rate and mixes alone, whoever else comes or goes: two listeners of two feeds that heard the same at
/// the same rate have the same payloads, and where as many ticks go into a packet, packets with the same payloads.
pub fn payloads_depend_on_mixes()
    ensures payloads { (coder : Coder) (one other : Feed) (g h : Guest) → Contains (guests coder one) g → Contains (guests coder other) h →
        g.listener.spec.rate ≡ h.listener.spec.rate → g.listener.heard ≡ h.listener.heard →
        own_payloads coder g.listener ≡ own_payloads coder h.listener }
    ensures packets { (coder : Coder) (one other : Feed) (g h : Guest) → Contains (guests coder one) g → Contains (guests coder other) h →
        g.listener.spec.rate ≡ h.listener.spec.rate → g.listener.heard ≡ h.listener.heard →
        payloads_a_packet g.listener.spec ≡ payloads_a_packet h.listener.spec →
        map (λ s. s.packet.payload) (packets coder g.listener) ≡ map (λ s. s.packet.payload) (packets coder h.listener) }
{}

/// What holds of the core after every list of events: a legal feed, no task with two numbers, numbers for just what is
/// reached, the triples of a finished tick run once each, and how many numbers were issued.
pub fn core_holds()
    ensures { (coder : Coder) → Tells coder → (events : List Event) → Holds coder (core_after coder events) }
{}

/// What is refused changes nothing.
pub fn refusals_change_nothing()
    ensures entry { (coder : Coder) (c : Core) (e : Entry) → accepts coder c e ≡ false → next coder c (Enters e) ≡ c }
    ensures publish { (coder : Coder) (c : Core) (n : ℕ) (x : Task) → holds_out coder c.runs n x ≡ false → next coder c (Publish n x) ≡ c }
    ensures give_back { (coder : Coder) (c : Core) (n : ℕ) (x : Task) → holds_out coder c.runs n x ≡ false → next coder c (GiveBack n x) ≡ c }
{}

/// Whoever hasn't passed its ticks waits for just one run, which is there and isn't finished: a listener gets on once its
/// runs are published. It holds of those who are present and of those who have left.
pub fn waits_for_one_run()
    ensures { (coder : Coder) → Tells coder → (events : List Event) (since h : Feed) → (core_after coder events).feed ≡ since ++ h →
        (l : Listener) → Contains (listeners coder h) l →
        has_passed coder (collects (core_after coder events).feed) (core_after coder events).runs l ≡ false →
        WaitsForOne coder (core_after coder events) l }
{}

/// A tick can be closed unless 4,320,000 were closed, 18,000 since the last cut, 64 wait to be collected, or the end came.
pub fn closes_have_limits()
    ensures over { (coder : Coder) (h : Feed) (tick : Tick) → closes h ≡ 4320000 → may_follow coder h (Close tick) ≡ false }
    ensures long { (coder : Coder) (h : Feed) (tick : Tick) → kept h ≡ 18000 → may_follow coder h (Close tick) ≡ false }
    ensures backlog { (coder : Coder) (h : Feed) (tick : Tick) → closes h ≡ collects h + 64 → may_follow coder h (Close tick) ≡ false }
    ensures ended { (coder : Coder) (h : Feed) (tick : Tick) → ended h ≡ true → may_follow coder h (Close tick) ≡ false }
    ensures can_close { (coder : Coder) (h : Feed) (tick : Tick) → closes h < 4320000 → kept h < 18000 → closes h < collects h + 64 → ended h ≡ false →
        may_follow coder h (Close tick) ≡ true }
{}

/// Nothing that follows a cut asks for more than its base: whatever entries follow, two feeds that are empty or end with a
/// cut, and have equal bases, agree on what may follow, on who is present, on the listeners, the triples and the packets of
/// each tick from the last close on, and again on what a cut would keep of them.
pub fn bases_are_enough()
    ensures agree { (coder : Coder) (p q s : Feed) → IsCut coder p → IsCut coder q → base coder p ≡ base coder q →
        Agree coder (closes p) (s ++ p) (s ++ q) }
{}

/// So two cores that have done the same since such cuts stay so, whatever happens: they take the same entries and the same
/// results, and claim the same runs.
pub fn twins_go_on()
    ensures agree { (coder : Coder) (p q s : Feed) (c d : Core) → AreTwins coder p q s c d → Agree coder (closes p) c.feed d.feed }
    ensures accepted { (coder : Coder) (p q s : Feed) (c d : Core) → AreTwins coder p q s c d → (e : Entry) →
        accepts coder c e ≡ accepts coder d e }
    ensures waiting { (coder : Coder) (p q s : Feed) (c d : Core) → AreTwins coder p q s c d → next_waiting c.runs ≡ next_waiting d.runs }
    ensures held_out { (coder : Coder) (p q s : Feed) (c d : Core) → AreTwins coder p q s c d → (n : ℕ) (x : Task) →
        holds_out coder c.runs n x ≡ holds_out coder d.runs n x }
    ensures entered { (coder : Coder) (p q s : Feed) (c d : Core) → AreTwins coder p q s c d → (e : Entry) →
        AreTwins coder p q (e ∷ s) (entered coder c e) (entered coder d e) }
    ensures next { (coder : Coder) (p q s : Feed) (c d : Core) → AreTwins coder p q s c d → (event : Event) →
        AreTwins coder p q (added coder c event ++ s) (next coder c event) (next coder d event) }
{}

/// The equality that the program tests triples by tells them apart: it says yes exactly where rate, state and mix are one.
pub fn triples_are_told_apart()
    ensures { Tells g726 }
{}
