//! What the definitions give for small live sessions: rows that the checker computes.

ghost use Rattle.std.specs.Prelude.{◌≡◌, true, false, Some, None, [], ◌∷◌, ◌++◌, take, length, map, replicate};
ghost use Rattle.conference_spec.specs.Rows.{small};
ghost use Rattle.session_spec.specs.Events.{feed_of};
ghost use Rattle.session_spec.specs.Rows.{alone};
ghost use Rattle.udp_edge.specs.declared.turns.Turn.TheVariants.{Nothing, Fault};
ghost use Rattle.live_spec.specs.Heard.{rounds, rounds_to, live_events, recording};
ghost use Rattle.live_spec.specs.Reports.{end_reports};
ghost use Rattle.live_spec.specs.Letters.{letters};
ghost use Rattle.live_spec.specs.Summed.{live_summary};
ghost use Rattle.live_spec.specs.Rows.{here, everybody, silent, came, heard_at};

/// A tick's rounds end with the first after which the next tick has begun, and a clock that stands still ends them too.
#[tactic(auto, unfolding(crate::specs::Heard::rounds_in))]
pub fn hearing()
    ensures at_once { rounds 4 20 0 (20 ∷ []) ≡ 1 }
    ensures third { rounds 4 20 5 (5 ∷ 24 ∷ 25 ∷ 60 ∷ []) ≡ 3 }
    ensures stands_still { rounds 4 20 0 (7 ∷ []) ≡ 4 }
    ensures goes_back { rounds 4 20 9 (0 ∷ 40 ∷ []) ≡ 2 }
    ensures ticks { map (rounds_to (silent (3 ∷ 20 ∷ 39 ∷ 40 ∷ 100 ∷ []))) (0 ∷ 1 ∷ 2 ∷ 3 ∷ 4 ∷ []) ≡ 0 ∷ 2 ∷ 4 ∷ 5 ∷ 6 ∷ [] }
    ensures datagrams { heard_at (record {
      coming = came (1 ∷ 2 ∷ []) ∷ Nothing ∷ came [] ∷ Fault ∷ came (3 ∷ 200 ∷ []) ∷ came (4 ∷ 205 ∷ []) ∷ came (200 ∷ []) ∷ [];
      start = 3;
      answers = 3 ∷ 23 ∷ 24 ∷ 25 ∷ 43 ∷ 63 ∷ 83 ∷ [];
    }) (0 ∷ 1 ∷ 2 ∷ 3 ∷ [])
        ≡ ((1 ∷ 2 ∷ []) ∷ []) ∷ [] ∷ ((4 ∷ 205 ∷ []) ∷ []) ∷ ((200 ∷ []) ∷ []) ∷ [] }
{}

/// One silent tick for one listener: a packet, and a report with a BYE at the port above.
#[tactic(auto, unfolding(crate::specs::Heard::rounds_in))]
pub fn sendings()
    ensures to { map (λ l. l.to.port) (letters everybody small 1 (feed_of (live_events alone (silent (20 ∷ [])) 1))) ≡ 5004 ∷ 5005 ∷ [] }
    ensures report { end_reports small 1 (feed_of (live_events alone (silent (20 ∷ [])) 1))
        ≡ record { ssrc = 7; stamp = 160; packets = 1; octets = 1; member = 1; bye = true } ∷ [] }
    ensures summary { live_summary small alone 1 (silent (20 ∷ [])) (true ∷ false ∷ [])
        ≡ record { ticks = 1; runs = 1; packets = 1; refused = 0; unsent = 1; reports = 1; heard = 0 } }
{}
