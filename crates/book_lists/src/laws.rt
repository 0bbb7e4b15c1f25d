//! Each step of the Book carries the step of the core that has its name.

ghost use Rattle.std.specs.Prelude.{◌≡◌, ◌≢◌, ℕ, Bool, true, false, not, ◌+◌, ◌<◌, ◌≤◌, ◌==◌, List, [], ◌∷◌, ◌++◌, length, map, filter, slice_get, slice_set, Some};
ghost use Rattle.std.specs.List.{All, AllZip, flat_map};
ghost use Rattle.talk_mix.specs.declared.ticks.Tick.{Tick};
ghost use Rattle.triple_table.specs.Rows.{Row, staged};
ghost use Rattle.conference_spec.specs.declared.JoinSpec.{JoinSpec};
ghost use Rattle.conference_spec.specs.declared.Stage.TheVariants.{Waiting, Out, Finished};
ghost use Rattle.conference_spec.specs.declared.Entry.TheVariants.{Join, Leave, Close, Collect, Cut, End};
ghost use Rattle.conference_spec.specs.Coding.{Coder, Tells};
ghost use Rattle.conference_spec.specs.Feed.{Feed, closes, collects, listeners};
ghost use Rattle.conference_spec.specs.Base.{base};
ghost use Rattle.conference_spec.specs.Packets.{sent, rest, payloads_a_packet};
ghost use Rattle.conference_spec.specs.Machine.{Core, begun, appended, entered, with_reached, with_stage, next_waiting, is_over, is_out, waits};
ghost use Rattle.conference_spec.specs.Members.{In};
ghost use Rattle.conference_spec.specs.Members.{Kept};
ghost use Rattle.g726_bits.specs.State.{CodecState};
ghost use Rattle.book_lists.specs.Mailing.{Mails, IsResultOf, first_mail, mail_goes, last_of, walked, still_open, stays_kept};
ghost use Rattle.book_lists.specs.declared.mails.Mail.{Mail};
ghost use Rattle.book_lists.specs.declared.seats.Rest.{Rest};
ghost use Rattle.book_lists.specs.declared.seats.Seat.{Seat};
ghost use Rattle.book_lists.specs.declared.seats.Ticket.{Ticket};
ghost use Rattle.book_lists.specs.declared.seats.Origin.TheVariants.{Known};
ghost use Rattle.book_lists.specs.Levels.{Level, Carries, HasTicket, Sweeps, Settles, BecomesSeat, Placing, placed_rests, rests_after, tickets, new_tickets, run_of, with_rows, all_finished};

/// Nothing at all stands for the start.
pub fn begun_carries()
    ensures { (coder : Coder) → Carries coder [] [] [] 0 begun }
{}

/// A join puts the new listener last, in the start state.
pub fn join_carries()
    ensures { (coder : Coder) (c : Core) (vs : List Level) (rests : List Rest) (queue : List Ticket) (issued : ℕ) (spec : JoinSpec) →
        Carries coder vs rests queue issued c →
        Carries coder vs (rests ++ record { spec = spec; heard = 0; origin = Known coder.start } ∷ []) queue issued (appended c (Join spec)) }
{}

/// A leave takes the listener out of those who are present; its seats at closed ticks stay.
pub fn leave_carries()
    ensures { (coder : Coder) (c : Core) (vs : List Level) (rests : List Rest) (queue : List Ticket) (issued m : ℕ) →
        Carries coder vs rests queue issued c →
        Carries coder vs (filter (λ r. not (r.spec.member == m)) rests) queue issued (appended c (Leave m)) }
{}

/// A cut changes the feed alone.
pub fn cut_carries()
    ensures { (coder : Coder) (c : Core) (vs : List Level) (rests : List Rest) (queue : List Ticket) (issued : ℕ) →
        Carries coder vs rests queue issued c → Carries coder vs rests queue issued (appended c Cut) }
{}

/// The end changes the feed alone.
pub fn end_carries()
    ensures { (coder : Coder) (c : Core) (vs : List Level) (rests : List Rest) (queue : List Ticket) (issued : ℕ) →
        Carries coder vs rests queue issued c → Carries coder vs rests queue issued (appended c End) }
{}

/// A close gives each present listener a seat at the new tick, and those whose state is known their run: each triple that
/// is new there gets the next number, in the order of joins.
pub fn close_carries()
    ensures { (coder : Coder) → Tells coder → (c : Core) (vs : List Level) (rests : List Rest) (queue : List Ticket) (issued : ℕ)
        (tick : Tick) (seats : List Seat) (rows : List Row) (n : ℕ) → Kept coder c → Carries coder vs rests queue issued c →
        record { rows = rows; issued = n } ≡ placed_rests coder tick vs rests (record { rows = []; issued = issued }) →
        AllZip (BecomesSeat coder tick vs rows) rests seats →
        Carries coder (record { number = closes c.feed; talkers = tick; seats = seats; rows = rows } ∷ vs) (rests_after 0 rests)
        (queue ++ tickets (closes c.feed) 0 issued (length rows)) n (with_reached coder (appended c (Close tick))) }
{}

/// A claim takes the first ticket, which is that of the next waiting run.
pub fn claim_carries()
    ensures next { (coder : Coder) (c : Core) (newer vs : List Level) (v : Level) (rests : List Rest) (t : Ticket) (queue : List Ticket)
        (issued : ℕ) (ht : HasTicket v t) → Kept coder c → Carries coder (newer ++ v ∷ vs) rests (t ∷ queue) issued c →
        next_waiting c.runs ≡ Some (run_of v.number ht.row) }
    ensures after { (coder : Coder) (c : Core) (newer vs : List Level) (v : Level) (rests : List Rest) (t : Ticket) (queue : List Ticket)
        (issued : ℕ) (ht : HasTicket v t) → Kept coder c → Carries coder (newer ++ v ∷ vs) rests (t ∷ queue) issued c →
        Carries coder (newer ++ with_rows v (slice_set v.rows t.at (staged ht.row Out)) ∷ vs) rests queue issued (with_stage c ht.row.number Out) }
{}

/// A job that is given back waits again, at its place in the queue.
pub fn give_back_carries()
    ensures { (coder : Coder) (c : Core) (newer vs : List Level) (v : Level) (rests : List Rest) (a b : List Ticket) (t : Ticket) (issued : ℕ)
        (r : Row) → Kept coder c → Carries coder (newer ++ v ∷ vs) rests (a ++ b) issued c → slice_get v.rows t.at ≡ Some r →
        is_out r.stage ≡ true → t.number ≡ r.number → t.tick ≡ v.number →
        ((s : Ticket) → In s a → s.number < t.number) → ((s : Ticket) → In s b → t.number < s.number) →
        Carries coder (newer ++ with_rows v (slice_set v.rows t.at (staged r Waiting)) ∷ vs) rests (a ++ t ∷ b) issued (with_stage c r.number Waiting) }
{}

/// A publication finishes its run; from its tick on, tick after tick and as long as anything moves, each listener that has
/// come to a state is given its run.
pub fn publish_carries()
    ensures { (coder : Coder) → Tells coder → (c : Core) (newer vs : List Level) (v : Level) (rests : List Rest) (queue : List Ticket)
        (issued at : ℕ) (r : Row) (new : List Level) (n : ℕ) (did : Bool) → Kept coder c → Carries coder (newer ++ v ∷ vs) rests queue issued c →
        slice_get v.rows at ≡ Some r → is_out r.stage ≡ true →
        Sweeps coder (newer ++ with_rows v (slice_set v.rows at (staged r Finished)) ∷ []) issued new n did →
        Carries coder (new ++ vs) rests
        (queue ++ new_tickets (newer ++ with_rows v (slice_set v.rows at (staged r Finished)) ∷ vs) (new ++ vs) issued) n
        (with_reached coder (with_stage c r.number Finished)) }
{}

/// A collect takes the oldest open tick, which is over just where all its rows are finished.
///
/// Where it was the only one, each present listener's state is then known.
pub fn collect_carries()
    ensures over { (coder : Coder) → Tells coder → (c : Core) (front : List Level) (v : Level) (rests : List Rest) (queue : List Ticket)
        (issued : ℕ) → Kept coder c → Carries coder (front ++ v ∷ []) rests queue issued c →
        is_over coder c.runs c.feed (collects c.feed) ≡ all_finished v.rows }
    ensures others_open { (coder : Coder) → Tells coder → (c : Core) (w : Level) (front : List Level) (v : Level) (rests : List Rest)
        (queue : List Ticket) (issued : ℕ) → Kept coder c → Carries coder (w ∷ front ++ v ∷ []) rests queue issued c →
        is_over coder c.runs c.feed (collects c.feed) ≡ true →
        Carries coder (w ∷ front) rests queue issued (entered coder c Collect) }
    ensures none_open { (coder : Coder) → Tells coder → (c : Core) (v : Level) (rests settled : List Rest) (queue : List Ticket) (issued : ℕ) →
        Kept coder c → Carries coder (v ∷ []) rests queue issued c → is_over coder c.runs c.feed (collects c.feed) ≡ true →
        AllZip (Settles coder v) rests settled → Carries coder [] settled queue issued (entered coder c Collect) }
{}

/// What the oldest open tick's seats have made, given to the outbox, is what is sent at that tick; the outbox goes on without
/// those whose leave was collected.
pub fn collect_hands_out()
    ensures sent { (coder : Coder) (c : Core) (front : List Level) (v : Level) (rests : List Rest) (queue : List Ticket) (issued : ℕ)
        (ms : List Mail) (rs : List (CodecState × List ℕ)) → Carries coder (front ++ v ∷ []) rests queue issued c →
        Mails coder (collects c.feed) c.feed ms → AllZip (λ s r. IsResultOf coder v.rows s.run r) v.seats rs →
        (walked (collects c.feed) ms rs).packets ≡ sent coder (collects c.feed) c.feed }
    ensures mails { (coder : Coder) (c : Core) (front : List Level) (v : Level) (rests : List Rest) (queue : List Ticket) (issued : ℕ)
        (ms : List Mail) (rs : List (CodecState × List ℕ)) → Carries coder (front ++ v ∷ []) rests queue issued c →
        Mails coder (collects c.feed) c.feed ms → AllZip (λ s r. IsResultOf coder v.rows s.run r) v.seats rs →
        Mails coder (collects c.feed + 1) (Collect ∷ c.feed) (still_open (collects c.feed) (walked (collects c.feed) ms rs).mails) }
{}

/// The outbox of nothing is empty, a join puts a mail last, a leave marks the leaver's, and closes, cuts and the end
/// change none.
pub fn mails_go_on()
    ensures begun { (coder : Coder) → Mails coder 0 [] [] }
    ensures join { (coder : Coder) (k : ℕ) (h : Feed) (ms : List Mail) (spec : JoinSpec) → k ≤ closes h → Mails coder k h ms →
        Mails coder k (Join spec ∷ h) (ms ++ first_mail coder.start spec (closes h) ∷ []) }
    ensures leave { (coder : Coder) (k : ℕ) (h : Feed) (ms : List Mail) (m : ℕ) → Mails coder k h ms →
        Mails coder k (Leave m ∷ h) (map (mail_goes m (closes h)) ms) }
    ensures close { (coder : Coder) (k : ℕ) (h : Feed) (ms : List Mail) (tick : Tick) → k ≤ closes h → Mails coder k h ms →
        Mails coder k (Close tick ∷ h) ms }
    ensures cut { (coder : Coder) (k : ℕ) (h : Feed) (ms : List Mail) → Mails coder k h ms → Mails coder k (Cut ∷ h) ms }
    ensures end { (coder : Coder) (k : ℕ) (h : Feed) (ms : List Mail) → Mails coder k h ms → Mails coder k (End ∷ h) ms }
{}

/// Where all ticks are collected, what is left in the outbox is the rest.
pub fn rest_is_in_mails()
    ensures { (coder : Coder) (h : Feed) (ms : List Mail) → Mails coder (closes h) h ms → flat_map last_of ms ≡ rest coder h }
{}

/// Where all ticks are collected, what a cut keeps of the outbox is what it keeps of the listeners.
pub fn stays_are_in_mails()
    ensures { (coder : Coder) (h : Feed) (ms : List Mail) → Mails coder (closes h) h ms → stays_kept (closes h) ms ≡ (base coder h).stays }
{}

/// A mail keeps fewer payloads than a packet carries, and has sent at most a packet a collected tick.
pub fn mails_are_short()
    ensures short { (coder : Coder) (k : ℕ) (h : Feed) (ms : List Mail) → Mails coder k h ms →
        All (λ m. length m.pending < payloads_a_packet m.spec) ms }
    ensures sent { (coder : Coder) (k : ℕ) (h : Feed) (ms : List Mail) → Mails coder k h ms → All (λ m. m.sent ≤ k) ms }
{}

/// Whatever the results are, a tick gives at most as many packets as there are mails, and no call changes what a listener
/// asked for.
pub fn mails_keep_their_specs()
    ensures count { (k : ℕ) (ms : List Mail) (rs : List (CodecState × List ℕ)) → length (walked k ms rs).packets ≤ length ms }
    ensures collect { (k : ℕ) (ms : List Mail) (rs : List (CodecState × List ℕ)) → map (λ m. m.spec) (walked k ms rs).mails ≡ map (λ m. m.spec) ms }
    ensures leave { (member k : ℕ) (ms : List Mail) → map (λ m. m.spec) (map (mail_goes member k) ms) ≡ map (λ m. m.spec) ms }
{}

/// The queue is as long as there are runs that wait.
pub fn queue_counts()
    ensures { (coder : Coder) (c : Core) (vs : List Level) (rests : List Rest) (queue : List Ticket) (issued : ℕ) → Kept coder c →
        Carries coder vs rests queue issued c → length queue ≡ length (filter (λ r. waits r.stage) c.runs) }
{}
