//! Laws of what a line says, and histories with their answers worked out by hand. Each is the contract of a function
//! that does nothing.

ghost use Rattle.std.specs.Prelude.{◌≡◌, ℕ, pos, [], ◌∷◌, ◌++◌, replicate};
ghost use Rattle.jitter_line.specs.declared.line.Put.TheVariants.{Took, Late, Early, Restarted};
ghost use Rattle.jitter_line.specs.Histories.{Packet, packet, Puts, Pulls, History, gauge, held, said};
ghost use Rattle.jitter_line.specs.Laws.{ComesAgain, TakesEither};
ghost use Rattle.jitter_line.specs.Standing.{answer};
ghost use Rattle.jitter_line.specs.Rows.{steady, repeated, began, refused, restarted};

/// The window's edges, for packets of 160 samples at a line that began with timestamp 0. The position is then -480.
pub fn window_edges()
    ensures first { answer [] (steady 0 1) ≡ Took 160 }
    ensures again { answer began (steady 0 1) ≡ Took 0 }
    ensures one_sample_left { answer began (steady 4294966657 1) ≡ Took 1 }
    ensures no_sample_left { answer began (steady 4294966656 1) ≡ Late }
    ensures last_place { answer began (steady 2560 1) ≡ Took 160 }
    ensures past_the_window { answer began (steady 2561 1) ≡ Early }
{}

/// Twenty-four packets in succession are refused, late and early ones alike, and the 25th restarts the line.
#[tactic(auto, unfolding(crate::specs::Histories::said))]
pub fn restart_at_the_25th()
    ensures twenty_fourth { answer (refused 23) (steady 4294966656 2) ≡ Late }
    ensures twenty_fifth { answer (refused 24) (steady 4294966656 2) ≡ Restarted }
    ensures early_too { answer (refused 24) (steady 2561 2) ≡ Restarted }
    ensures counted_anew { answer (Puts (steady 0 1) ∷ refused 24) (steady 2561 2) ≡ Early }
    ensures silence { said (repeated 2 Pulls restarted) ≡ replicate 160 (pos 0) }
    ensures its_samples { said (repeated 3 Pulls restarted) ≡ replicate 160 (pos 2) }
{}

/// A packet is heard from the fourth frame on, the first to come for a place is kept, and a gap is silence. Timestamps
/// wrap at 2^32.
#[tactic(auto, unfolding(crate::specs::Histories::said))]
pub fn overlap_and_gap()
    ensures unstarted { said (Pulls ∷ []) ≡ replicate 160 (pos 0) }
    ensures delayed { said (repeated 2 Pulls began) ≡ replicate 160 (pos 0) }
    ensures heard { said (repeated 3 Pulls began) ≡ replicate 160 (pos 1) }
    ensures overlap { answer began (steady 80 2) ≡ Took 80 }
    ensures first_kept { said (repeated 3 Pulls (Puts (steady 80 2) ∷ began)) ≡ replicate 160 (pos 1) }
    ensures gap { said (repeated 4 Pulls (Puts (steady 80 2) ∷ began)) ≡ replicate 80 (pos 2) ++ replicate 80 (pos 0) }
    ensures wrapped { said (repeated 4 Pulls (Puts (steady 64 2) ∷ Puts (steady 4294967200 1) ∷ [])) ≡ replicate 160 (pos 2) }
{}

/// A packet that was taken and comes again, with no start of the line between and before it is late, is answered that
/// nothing is new, and changes no place.
pub fn repeated_packet()
    ensures nothing_new { (p : Packet) (since h : History) → ComesAgain p since h →
        answer (since ++ Puts p ∷ h) p ≡ Took 0 }
    ensures no_place_changed { (p : Packet) (since h : History) → ComesAgain p since h →
        (place : ℕ) → held (Puts p ∷ since ++ Puts p ∷ h) place ≡ held (since ++ Puts p ∷ h) place }
{}

/// Two packets that a line with a position takes, and that share no place, leave the same line in either order.
pub fn order_of_packets()
    ensures same_gauge { (h : History) (p q : Packet) → TakesEither h p q →
        gauge (Puts p ∷ Puts q ∷ h) ≡ gauge (Puts q ∷ Puts p ∷ h) }
    ensures same_places { (h : History) (p q : Packet) → TakesEither h p q →
        (place : ℕ) → held (Puts p ∷ Puts q ∷ h) place ≡ held (Puts q ∷ Puts p ∷ h) place }
{}
