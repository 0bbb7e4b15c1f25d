//! Laws of the profile. Each is the contract of a function that does nothing.

ghost use Rattle.std.specs.Prelude.{◌≡◌, ◌≢◌, ◌≤◌, ◌+◌, ◌-◌, ◌^◌, ℕ, ℤ, List, pos, replicate};
ghost use Rattle.g726_bits.specs.declared.Rate.{Rate};
ghost use Rattle.g726_bits.specs.declared.Rate.TheVariants.{R16, R24, R32, R40};
ghost use Rattle.g726_bits.specs.Rates.{bits_of};
ghost use Rattle.g726_bits.specs.State.{CodecState, start, silent};
ghost use Rattle.g726_bits.specs.Step.{step_size, coded_magnitude, state_after};
ghost use Rattle.g726_bits.specs.Encoder.{codes_of, after_samples, stepped};
ghost use Rattle.g726_bits.specs.Ranges.{IsSound, IsStepSize};
ghost use Rattle.g726_bits.specs.Vectors.{square, square_codes_16, square_codes_24, square_codes_32, square_codes_40, sine, sine_codes_16, sine_codes_24, sine_codes_32, sine_codes_40};

/// The ranges that hold of every state, whatever the samples or the codes.
///
/// The fast and the slow scale factor, the speed and its two means, both poles, the step size, and the magnitude that a
/// code stands for, which has 15 bits.
pub fn ranges_hold()
    ensures at_start { IsSound start }
    ensures through_a_code { (rate : Rate) → (s : CodecState) → (code : ℕ) → IsSound s → IsSound (state_after rate s code) }
    ensures through_samples { (rate : Rate) → (xs : List ℤ) → IsSound (after_samples rate start xs) }
    ensures of_step_size { (s : CodecState) → IsSound s → IsStepSize (step_size s.scale) }
    ensures of_magnitude { (rate : Rate) → (s : CodecState) → (code : ℕ) → IsSound s → coded_magnitude rate s code ≤ 32767 }
{}

/// Silence above 16 kbit/s: the start state gives the code of all ones at each sample, and settles within a frame.
pub fn silence_settles()
    ensures only_code { (rate : Rate) → rate ≢ R16 → (k : ℕ) → codes_of rate start (replicate k (pos 0)) ≡ replicate k (2 ^ bits_of rate - 1) }
    ensures settled { (rate : Rate) → rate ≢ R16 → (k : ℕ) → after_samples rate start (replicate (160 + k) (pos 0)) ≡ silent }
    ensures fixed { (rate : Rate) → rate ≢ R16 → stepped rate silent (pos 0) ≡ silent }
{}

/// The codes of a loud square wave, over which the sums of products wrap, as another program computes them.
pub fn square_wave_is_coded()
    ensures at_16 { codes_of R16 start square ≡ square_codes_16 }
    ensures at_24 { codes_of R24 start square ≡ square_codes_24 }
    ensures at_32 { codes_of R32 start square ≡ square_codes_32 }
    ensures at_40 { codes_of R40 start square ≡ square_codes_40 }
{}

/// The codes of a tone, over which the poles reach their limits, as another program computes them.
pub fn tone_is_coded()
    ensures at_16 { codes_of R16 start sine ≡ sine_codes_16 }
    ensures at_24 { codes_of R24 start sine ≡ sine_codes_24 }
    ensures at_32 { codes_of R32 start sine ≡ sine_codes_32 }
    ensures at_40 { codes_of R40 start sine ≡ sine_codes_40 }
{}
