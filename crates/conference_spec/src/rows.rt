//! What the definitions give for small sessions and lists of machine steps: rows that the checker computes.

ghost use Rattle.std.specs.Prelude.{◌≡◌, pos, false, true, None, [], ◌∷◌, map};
ghost use Rattle.g726_bits.specs.declared.Rate.TheVariants.{R24, R32, R40};
ghost use Rattle.g726_bits.specs.State.{start};
ghost use Rattle.g726_bits.specs.Encoder.{stepped};
ghost use Rattle.conference_spec.specs.declared.Entry.TheVariants.{Leave, Collect, Cut, End};
ghost use Rattle.conference_spec.specs.Codec.{g726};
ghost use Rattle.conference_spec.specs.Feed.{cut, kept, may_follow};
ghost use Rattle.conference_spec.specs.Packets.{rest};
ghost use Rattle.conference_spec.specs.Tasks.{due};
ghost use Rattle.conference_spec.specs.Machine.{Enters, Claim, Publish, GiveBack, begun, accepts, next, next_waiting, core_after, waits};
ghost use Rattle.conference_spec.specs.Rows.{small, runs_of, joins, quiet, runs_at, packets_at, shape, shapes_at, stays_of, once_heard, bundled, short_stay, late_joiner, one_talker, silence, settled, one_out, left_while_out, held_back, let_go, collected, closed, crowd, after_one_hundred};

/// How many runs and packets the ticks of small sessions have.
///
/// A listener that comes late has a run of its own at its first tick, and at another rate for good. A talker doesn't hear
/// itself, so its mix and that of the others part.
pub fn sessions()
    ensures late_runs { runs_at (0 ∷ 1 ∷ 2 ∷ []) (late_joiner R24) ≡ 1 ∷ 2 ∷ 1 ∷ [] }
    ensures late_packets { packets_at (0 ∷ 1 ∷ 2 ∷ []) (late_joiner R24) ≡ 1 ∷ 2 ∷ 2 ∷ [] }
    ensures late_due { due small (late_joiner R24) ≡ 4 }
    ensures none_left { rest small (late_joiner R24) ≡ [] }
    ensures other_rate { runs_at (0 ∷ 1 ∷ 2 ∷ []) (late_joiner R40) ≡ 1 ∷ 2 ∷ 2 ∷ [] }
    ensures talker_runs { runs_at (0 ∷ 1 ∷ 2 ∷ 3 ∷ []) one_talker ≡ 1 ∷ 1 ∷ 1 ∷ 2 ∷ [] }
    ensures talker_packets { packets_at (0 ∷ 1 ∷ 2 ∷ 3 ∷ []) one_talker ≡ 5 ∷ 5 ∷ 5 ∷ 5 ∷ [] }
{}

/// Packets of several ticks: one of four after the fourth, and the two that are left at the end; one of three after the
/// third, and the two that are left where its listener goes, with the tick that is closed next. Where none is closed any
/// more, they are left over too. Timestamps count 160 for each tick, sequence numbers one for each packet.
pub fn bundles()
    ensures ticks { shapes_at (0 ∷ 1 ∷ 2 ∷ 3 ∷ 4 ∷ 5 ∷ []) bundled
        ≡ [] ∷ [] ∷ ((0, 0, 3) ∷ []) ∷ ((0, 0, 4) ∷ []) ∷ [] ∷ ((1, 480, 2) ∷ []) ∷ [] }
    ensures left { map shape (rest small bundled) ≡ (1, 640, 2) ∷ [] }
    ensures none_before { packets_at (0 ∷ 1 ∷ []) short_stay ≡ 0 ∷ 0 ∷ [] }
    ensures left_early { map shape (rest small short_stay) ≡ (0, 0, 2) ∷ [] }
    ensures next_tick { shapes_at (2 ∷ []) (quiet ∷ short_stay) ≡ ((0, 0, 2) ∷ []) ∷ [] }
    ensures none_after { map shape (rest small (quiet ∷ short_stay)) ≡ [] }
{}

/// A listener leaves while its run is out: its packet is handed out all the same, and the tick after its leave has none.
pub fn leave_while_out()
    ensures issued { (core_after small (collected 2 left_while_out)).issued ≡ 1 }
    ensures packets { packets_at (0 ∷ 1 ∷ []) (core_after small (collected 2 left_while_out)).feed ≡ 1 ∷ 0 ∷ [] }
    ensures not_before { accepts small (core_after small one_out) Collect ≡ false }
    ensures no_third { accepts small (core_after small (collected 2 left_while_out)) Collect ≡ false }
{}

/// Two listeners, of whom the second one's first run is held while the first one's go on: once it is published the second
/// takes the finished results of the later ticks, and no run waits.
pub fn pipelined()
    ensures held { accepts small (core_after small (collected 1 held_back)) Collect ≡ false }
    ensures none_waits { next_waiting (core_after small let_go).runs ≡ None }
    ensures issued { (core_after small (collected 4 let_go)).issued ≡ 5 }
    ensures packets { packets_at (0 ∷ 1 ∷ 2 ∷ 3 ∷ []) (core_after small (collected 4 let_go)).feed ≡ 1 ∷ 2 ∷ 2 ∷ 2 ∷ [] }
{}

/// A result of another triple is refused, and so is a second one of the same number; a run that was given back waits under
/// the same number.
pub fn refused_results()
    ensures another { next small (core_after small one_out) (Publish 1 (silence 0 1 R32 start)) ≡ core_after small one_out }
    ensures twice { next small (next small (core_after small one_out) (Publish 1 (silence 0 1 R24 start))) (Publish 1 (silence 0 1 R24 start))
        ≡ next small (core_after small one_out) (Publish 1 (silence 0 1 R24 start)) }
    ensures given_back { next small (next small (core_after small one_out) (GiveBack 1 (silence 0 1 R24 start))) Claim ≡ core_after small one_out }
    ensures given_twice { next small (next small (core_after small one_out) (GiveBack 1 (silence 0 1 R24 start))) (GiveBack 1 (silence 0 1 R24 start))
        ≡ next small (core_after small one_out) (GiveBack 1 (silence 0 1 R24 start)) }
{}

/// A number that was used, a member that is absent, a collect before any close and a claim of nothing change nothing. Sixty-four
/// ticks wait to be collected at most, and 1,024 listeners are present at most.
pub fn refused_entries()
    ensures used { accepts small (core_after small one_out) (joins 1 R32) ≡ false }
    ensures used_after_leave { accepts small (core_after small left_while_out) (joins 1 R24) ≡ false }
    ensures absent { accepts small (core_after small one_out) (Leave 2) ≡ false }
    ensures early { accepts small begun Collect ≡ false }
    ensures room_for_close { may_follow small (closed 63) quiet ≡ true }
    ensures backlog { may_follow small (closed 64) quiet ≡ false }
    ensures backlog_collected { may_follow small (Collect ∷ closed 64) quiet ≡ true }
    ensures room_for_join { may_follow small (crowd 1023) (joins 1023 R24) ≡ true }
    ensures full { may_follow small (crowd 1024) (joins 1024 R24) ≡ false }
    ensures idle { next small begun Claim ≡ begun }
{}

/// A cut wants a close since the last one, all that was closed collected, and no end. A number that was used before it stays
/// used. It keeps those who are present and those who are owed a packet, with how many ticks they heard and how many payloads
/// they are owed.
pub fn cuts()
    ensures all_collected { may_follow small (once_heard 1) Cut ≡ true }
    ensures not_collected { may_follow small (quiet ∷ once_heard 1) Cut ≡ false }
    ensures none_closed { may_follow small (joins 1 R24 ∷ []) Cut ≡ false }
    ensures twice { may_follow small (Cut ∷ once_heard 1) Cut ≡ false }
    ensures after_end { may_follow small (End ∷ once_heard 1) Cut ≡ false }
    ensures used_before { may_follow small (Cut ∷ Leave 1 ∷ once_heard 1) (joins 1 R32) ≡ false }
    ensures counted { kept (Collect ∷ quiet ∷ Cut ∷ once_heard 1) ≡ 1 }
    ensures from_a_cut { cut (Collect ∷ quiet ∷ Cut ∷ once_heard 1) ≡ Cut ∷ once_heard 1 }
    ensures here { stays_of (once_heard 1) ≡ (1, 1, 0) ∷ [] }
    ensures owed { stays_of (once_heard 3) ≡ (1, 1, 1) ∷ [] }
    ensures gone { stays_of (Leave 1 ∷ once_heard 1) ≡ [] }
    ensures gone_owed { stays_of (Leave 1 ∷ once_heard 3) ≡ (1, 1, 1) ∷ [] }
    ensures paid { stays_of (quiet ∷ Leave 1 ∷ once_heard 3) ≡ [] }
    ensures goes_on { shapes_at (1 ∷ 2 ∷ []) (quiet ∷ quiet ∷ Cut ∷ once_heard 3) ≡ [] ∷ ((0, 0, 3) ∷ []) ∷ [] }
{}

/// The encoder that is meant: its state after one sample.
pub fn first_sample()
    ensures { stepped R32 start (pos 100) ≡ after_one_hundred }
{}

/// The same sessions of silent listeners with the encoder that is meant.
pub fn silent_sessions()
    ensures late_runs { runs_of g726 (0 ∷ 1 ∷ 2 ∷ []) (late_joiner R24) ≡ 1 ∷ 2 ∷ 1 ∷ [] }
    ensures other_rate { runs_of g726 (0 ∷ 1 ∷ 2 ∷ []) (late_joiner R40) ≡ 1 ∷ 2 ∷ 2 ∷ [] }
{}
