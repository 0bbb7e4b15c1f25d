//! A law over the definitions: the contract of a function that does nothing.

ghost use Rattle.std.specs.Prelude.{◌≡◌, ℕ, ℤ, pos, List, ◌∷◌, ◌++◌, map, replicate};
ghost use Rattle.g726_bits.specs.declared.Rate.{Rate};
ghost use Rattle.g726_bits.specs.State.{CodecState, start};
ghost use Rattle.g726_bits.specs.Encoder.{codes_of, after_samples};
ghost use Rattle.g726_codec.specs.Decoder.{samples_of};
ghost use Rattle.jitter_line.specs.Histories.{Packet, Puts, History, Restarts, fate_of, gauge};
ghost use Rattle.talk_726.specs.Decoding.{place_of, state_past, samples_for, decoder};

/// A talker's decoder keeps step with the encoder whose codes its line holds: past them it is in the encoder's state, and
/// it says the samples that a decoder gives for them. Places without a code are silent and leave it as it is. A packet
/// that restarts the line sets it back to the start state.
pub fn decoder_follows_an_encoder()
    ensures state { (rate : Rate) (s : CodecState) (xs : List ℤ) →
        state_past rate s (map place_of (codes_of rate s xs)) ≡ after_samples rate s xs }
    ensures samples { (rate : Rate) (s : CodecState) (codes : List ℕ) →
        samples_for rate s (map place_of codes) ≡ samples_of rate s codes }
    ensures gap { (rate : Rate) (s : CodecState) (n : ℕ) (xs : List ℤ) →
        state_past rate s (replicate n (pos 0) ++ xs) ≡ state_past rate s xs }
    ensures silence { (rate : Rate) (s : CodecState) (n : ℕ) (xs : List ℤ) →
        samples_for rate s (replicate n (pos 0) ++ xs) ≡ replicate n (pos 0) ++ samples_for rate s xs }
    ensures restart { (rate : Rate) (h : History) (p : Packet) → fate_of (gauge h) p ≡ Restarts →
        decoder rate (Puts p ∷ h) ≡ start }
{}
