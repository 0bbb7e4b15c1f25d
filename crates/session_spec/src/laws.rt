//! Laws over the definitions: each is the contract of a function that does nothing.

ghost use Rattle.std.specs.Prelude.{◌≡◌, ◌<◌, ◌≤◌, ◌==◌, ℕ, true, List, ◌++◌, map, Contains};
ghost use Rattle.std.specs.List.{list_any};
ghost use Rattle.roster_text.specs.declared.commands.Timed.{Timed};
ghost use Rattle.rtp_dump.specs.declared.item.DumpItem.{DumpItem};
ghost use Rattle.conference_spec.specs.Coding.{Coder};
ghost use Rattle.conference_spec.specs.Feed.{Feed, Guest, closes, collects, kept, guests, listeners, is_legal};
ghost use Rattle.conference_spec.specs.Packets.{packets, sent, rest};
ghost use Rattle.conference_spec.specs.Tasks.{due};
ghost use Rattle.session_spec.specs.Talkers.{Events};
ghost use Rattle.session_spec.specs.Events.{listens, feed_of, refused, kept_before, events};
ghost use Rattle.session_spec.specs.Answer.{sent_to, ticks_text};
ghost use Rattle.session_spec.specs.Laws.{ticks_of, of_talkers, without_cuts, packets_to};

/// Members that only listen change nobody else's packets: two rosters that agree once the commands of such members are
/// left out close each tick with the same talkers, and refuse as much, whatever is heard.
pub fn listeners_change_nothing()
    ensures ticks { (one other : List Timed) (heard : ℕ → List DumpItem) (k : ℕ) → of_talkers one ≡ of_talkers other →
        ticks_of (feed_of (events one heard k)) ≡ ticks_of (feed_of (events other heard k)) }
    ensures refusals { (one other : List Timed) (heard : ℕ → List DumpItem) (k : ℕ) → of_talkers one ≡ of_talkers other →
        refused (events one heard k) ≡ refused (events other heard k) }
{}

/// Cuts change nothing that is sent: what each tick is sent, what is left, the runs and the refusals are what they are for the
/// same events without cuts.
pub fn cuts_change_nothing()
    ensures sent { (coder : Coder) (k : ℕ) (h : Events) → sent coder k (feed_of h) ≡ sent coder k (feed_of (without_cuts h)) }
    ensures left { (coder : Coder) (h : Events) → rest coder (feed_of h) ≡ rest coder (feed_of (without_cuts h)) }
    ensures runs { (coder : Coder) (h : Events) → due coder (feed_of h) ≡ due coder (feed_of (without_cuts h)) }
    ensures refusals { (h : Events) → refused h ≡ refused (without_cuts h) }
{}

/// What an answer holds for a listener, with what is left after the last tick, is all that an encoder of its own sends, in
/// order and once each.
pub fn packets_are_its_encoders()
    ensures { (coder : Coder) (h : Feed) (g : Guest) → is_legal coder h ≡ true → Contains (guests coder h) g →
        packets_to g.listener.spec.member (sent_to coder (closes h) h ++ rest coder h)
        ≡ map (λ s. s.packet) (packets coder g.listener) }
{}

/// The text of closed ticks stays as it is, whatever comes after them.
pub fn text_stays()
    ensures text { (coder : Coder) (k : ℕ) (since h : Feed) → k ≤ closes h → ticks_text coder k (since ++ h) ≡ ticks_text coder k h }
    ensures packets { (coder : Coder) (k : ℕ) (since h : Feed) → k ≤ closes h → sent_to coder k (since ++ h) ≡ sent_to coder k h }
{}

/// A member listens exactly where the conference has it as a listener; each tick that ends is closed and collected; and
/// what a conference keeps is the ticks since the last cut, at most 9,000.
pub fn feed_follows()
    ensures listens { (coder : Coder) (member : ℕ) (h : Events) →
        listens member h ≡ list_any (λ l. l.spec.member == member) (listeners coder (feed_of h)) }
    ensures closes { (plan : List Timed) (heard : ℕ → List DumpItem) (k : ℕ) → closes (feed_of (events plan heard k)) ≡ k }
    ensures collects { (h : Events) → collects (feed_of h) ≡ closes (feed_of h) }
    ensures kept { (plan : List Timed) (heard : ℕ → List DumpItem) (k : ℕ) → kept (feed_of (events plan heard k)) ≡ kept_before k }
{}
