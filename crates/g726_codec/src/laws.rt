//! A law of the codec: the contract of a function that does nothing.

ghost use Rattle.std.specs.Prelude.{◌≡◌, ℤ, List};
ghost use Rattle.g726_bits.specs.declared.Rate.{Rate};
ghost use Rattle.g726_bits.specs.State.{CodecState};
ghost use Rattle.g726_bits.specs.Encoder.{codes_of, after_samples};
ghost use Rattle.g726_codec.specs.Decoder.{after_codes};

/// A decoder that is given an encoder's codes, from a state that both are in, ends in the state that the encoder ends in.
pub fn decoder_tracks()
    ensures { (rate : Rate) → (s : CodecState) → (samples : List ℤ) → after_codes rate s (codes_of rate s samples) ≡ after_samples rate s samples }
{}
