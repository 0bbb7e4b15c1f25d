//! What the definitions give for small sessions: rows that the checker computes.

ghost use Rattle.std.specs.Prelude.{◌≡◌, Some, None, [], ◌∷◌, ◌++◌, take, length};
ghost use Rattle.g726_bits.specs.declared.Rate.TheVariants.{R16, R24, R32};
ghost use Rattle.conference_spec.specs.Rows.{small, runs_at};
ghost use Rattle.rtp_head.specs.declared.HeadFault.TheVariants.{Short};
ghost use Rattle.rtp_dump.specs.declared.faults.DumpKind.TheVariants.{NotDump, TornHead, TornRecord};
ghost use Rattle.rtp_dump.specs.Capture.{capture};
ghost use Rattle.rtp_dump.specs.Writing.{output_head};
ghost use Rattle.session_spec.specs.declared.Arrival.TheVariants.{Took, Restarted, Cut, Head, Unknown, PayloadType, Empty, TooLong, Ragged, Late, Early};
ghost use Rattle.session_spec.specs.Talkers.{Hears, talkers, arrival};
ghost use Rattle.session_spec.specs.Events.{feed_of, refused};
ghost use Rattle.session_spec.specs.Captured.{events_over, ticks_ended, met, head_fault, part};
ghost use Rattle.session_spec.specs.Answer.{summary_of, written};
ghost use Rattle.session_spec.specs.Rows.{speech, recorded, alone, in_bundles, pair, five, leaving, began, coding, late, captured, three, at_moments, counts, alone_sent, left_sent};

/// What arrives is refused by the first reason that fits: octets that are missing, the head, an SSRC that nobody talks
/// with, or not any more, the payload type, the payload's length, and the line. Marker and sequence number don't count.
#[tactic(auto)]
pub fn arrivals()
    ensures cut { arrival (talkers leaving) 173 (speech 5 0 0 160) ≡ Cut }
    ensures front { arrival (talkers leaving) 171 (speech 5 0 0 160) ≡ Took 159 }
    ensures head { arrival (talkers leaving) 11 (speech 5 0 0 160) ≡ Head Short }
    ensures unknown { arrival (talkers leaving) 172 (speech 7 0 0 160) ≡ Unknown }
    ensures left { arrival (talkers leaving) 172 (speech 6 8 0 160) ≡ Unknown }
    ensures payload_type { arrival (talkers leaving) 12 (speech 5 8 0 0) ≡ PayloadType }
    ensures empty { arrival (talkers leaving) 12 (speech 5 0 0 0) ≡ Empty }
    ensures long { arrival (talkers leaving) 1612 (speech 5 0 0 1600) ≡ Took 1600 }
    ensures too_long { arrival (talkers leaving) 1613 (speech 5 0 0 1601) ≡ TooLong }
    ensures late { arrival (talkers began) 172 (speech 5 0 4294966656 160) ≡ Late }
    ensures early { arrival (talkers began) 172 (speech 5 0 2561 160) ≡ Early }
    ensures repeated { arrival (talkers began) 172 (speech 5 0 0 160) ≡ Took 0 }
    ensures restarted { arrival (talkers (late ++ began)) 172 (speech 5 0 4294966656 160) ≡ Restarted }
    ensures counted { refused (late ++ began) ≡ 24 }
{}

/// What arrives for a talker of G.726 has its own payload type, at most 200 ms, and whole codes, each of which counts as a
/// sample.
#[tactic(auto, unfolding(talk_726::specs::Decoding::codes_in, g726_bits::specs::Packing::digits))]
pub fn arrivals_of_codes()
    ensures whole { arrival (talkers (coding R32)) 92 (speech 5 100 0 80) ≡ Took 160 }
    ensures short { arrival (talkers (coding R24)) 15 (speech 5 100 0 3) ≡ Took 8 }
    ensures long { arrival (talkers (coding R16)) 412 (speech 5 100 0 400) ≡ Took 1600 }
    ensures payload_type { arrival (talkers (coding R32)) 92 (speech 5 0 0 80) ≡ PayloadType }
    ensures empty { arrival (talkers (coding R24)) 12 (speech 5 100 0 0) ≡ Empty }
    ensures too_long { arrival (talkers (coding R24)) 613 (speech 5 100 0 601) ≡ TooLong }
    ensures ragged { arrival (talkers (coding R24)) 92 (speech 5 100 0 80) ≡ Ragged }
    ensures late { arrival (talkers (Hears 52 (speech 5 100 0 40) ∷ coding R16)) 52 (speech 5 100 4294966656 40) ≡ Late }
    ensures in_time { arrival (talkers (Hears 52 (speech 5 100 0 40) ∷ coding R16)) 52 (speech 5 100 4294966657 40) ≡ Took 1 }
{}

/// A record past a tick holds back those that follow it, whatever their moments; and the ticks before its own are ended.
pub fn moments_that_fall()
    ensures heard { counts (at_moments (100 ∷ 0 ∷ 30 ∷ 130 ∷ 7 ∷ [])) (0 ∷ 1 ∷ 4 ∷ 5 ∷ 6 ∷ 7 ∷ []) ≡ 0 ∷ 0 ∷ 0 ∷ 3 ∷ 2 ∷ 0 ∷ [] }
    ensures ended { ticks_ended (at_moments (100 ∷ 0 ∷ 30 ∷ 130 ∷ 7 ∷ [])) ≡ 6 }
    ensures part { part 6 (at_moments (100 ∷ 0 ∷ 30 ∷ 130 ∷ 7 ∷ [])) ≡ at_moments (100 ∷ 0 ∷ 30 ∷ 130 ∷ []) }
    ensures no_tick { part 0 (at_moments (0 ∷ [])) ≡ [] }
{}

/// A fault is met in the tick that it cuts short, and not where the session ends before it. A fault of the line is met
/// before any tick.
#[tactic(auto, unfolding(rtp_dump::specs::Capture::capture, rtp_dump::specs::Capture::records_from, rtp_dump::specs::Capture::line_at))]
pub fn faults_met()
    ensures no_dump { head_fault [] ≡ Some (record { at = 0; kind = NotDump }) }
    ensures in_the_first { met 3 (capture (take 300 three)) ≡ Some (record { fault = record { at = 219; kind = TornRecord }; tick = 0 }) }
    ensures in_the_second { met 3 (capture (take 500 three)) ≡ Some (record { fault = record { at = 399; kind = TornRecord }; tick = 1 }) }
    ensures torn_head { met 3 (capture (take 403 three)) ≡ Some (record { fault = record { at = 399; kind = TornHead }; tick = 1 }) }
    ensures whole { met 3 (capture three) ≡ None }
    ensures after_the_end { met 1 (capture (take 500 three)) ≡ None }
{}

/// Whole sessions, with a coder that is quick to compute: what they count, and what they write. What is left after the
/// last tick is written a tick later, but not where a fault ends the session.
#[tactic(auto)]
pub fn sessions()
    ensures one_talker { summary_of small pair 3 (capture three) ≡ record { ticks = 3; runs = 3; packets = 3; refused = 0 } }
    ensures unknown { summary_of small alone 1 (capture (captured (recorded 0 5 0 ∷ []))) ≡ record { ticks = 1; runs = 1; packets = 1; refused = 1 } }
    ensures talks_and_listens { summary_of small five 4 (capture (captured (recorded 0 101 0 ∷ []))) ≡ record { ticks = 4; runs = 5; packets = 20; refused = 0 } }
    ensures runs { runs_at (0 ∷ 1 ∷ 2 ∷ 3 ∷ []) (feed_of (events_over five (recorded 0 101 0 ∷ []) 4)) ≡ 1 ∷ 1 ∷ 1 ∷ 2 ∷ [] }
    ensures answer { written small alone 1 output_head ≡ output_head ++ alone_sent }
    ensures cut_short { written small pair 3 (take 500 three) ≡ written small pair 1 three }
    ensures nothing { written small pair 3 (take 38 three) ≡ [] }
    ensures bundles { summary_of small (in_bundles 4) 5 (capture output_head) ≡ record { ticks = 5; runs = 5; packets = 2; refused = 0 } }
    ensures left { written small (in_bundles 2) 3 output_head ≡ output_head ++ left_sent }
    ensures left_by_a_fault { written small (in_bundles 2) 3 (take 500 three) ≡ output_head }
{}
