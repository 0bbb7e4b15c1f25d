//! The decoder: one step, and a frame.

ghost use Rattle.std.specs.Prelude.{◌≡◌, ◌+ℤ◌, ◌+◌, ◌<◌, ◌^◌, pos, negsuc};
ghost use Rattle.std.specs.List.{All};
ghost use Rattle.g726_bits.specs.Numbers.{word, limited, signed};
ghost use Rattle.g726_bits.specs.Rates.{bits_of};
ghost use Rattle.g726_bits.specs.Ranges.{IsSample, IsSound};
ghost use Rattle.g726_bits.specs.Step.{state_after, sample_of};
ghost use Rattle.g726_codec.specs.Decoder.{after_codes, samples_of};
ghost use Rattle.g726_codec.specs.Joined.{joined};

use crate::EncState;
use crate::steps::move_on;
use g726_bits::{Rate, w16};
use g726_predict::FramePredictor;
use g726_quant::{Coded, levels};
use g726_scale::Scale;

/// What a decoder makes of a code: the state after it, and the sample of uniform speech on the 14-bit scale.
#[derive(Clone, Copy, PartialEq, Eq, Debug)]
pub struct Followed {
    pub after: EncState,
    pub sample: i16,
}

/// A magnitude below 2^15 with a minus sign where there is one (G.726, 4.2.4: DQ).
#[tactic(auto, using(g726_bits::proofs::Floors::floors), unfolding(g726_bits::specs::Numbers::signed))]
fn with_sign(negative: bool, magnitude: u16) -> i16
    requires { magnitude < 2 ^ 15 }
    ensures { result ≡ signed negative magnitude }
{
    let whole = magnitude as i16;
    if negative { -whole } else { whole }
}

/// The estimate with the difference, as a word of 16 bits (G.726, 4.2.6, ADDB: SR).
#[tactic(auto, using(g726_bits::proofs::Floors::plain))]
fn signal_of(estimate: i16, difference: i16) -> i16
    ensures { result ≡ word (estimate +ℤ difference) }
{
    w16(i64::from(estimate) + i64::from(difference))
}

/// A signal limited to 14 bits.
#[tactic(auto, unfolding(g726_bits::specs::Numbers::limited))]
fn limit(signal: i16) -> i16
    ensures value { result ≡ limited (negsuc 8191) (pos 8191) signal }
    ensures within { IsSample result }
{
    if signal < -8192 {
        -8192
    } else if 8191 < signal {
        8191
    } else {
        signal
    }
}

/// One step of the decoder, whose state moves as the encoder's does at that code (ITU-T G.726 with Annex A).
///
/// The code has as many bits as the rate gives it. The sample is the reconstructed signal, limited to -8192..=8191; the
/// state keeps the signal as it is.
pub fn follow(rate: Rate, state: EncState, code: u8) -> Followed
    requires { code < 2 ^ bits_of rate }
    ensures after { result.after ≡ state_after rate state code }
    ensures sample { result.sample ≡ sample_of rate state code }
    ensures within { IsSample result.sample }
    ensures sound { IsSound result.after }
{
    let mut predictor = FramePredictor::begin(&state.predictor);
    let mut scale = state.scale;
    let sample = follow_step(rate, &mut predictor, &mut scale, code);
    let after = EncState {
        predictor: predictor.predictor(),
        scale,
    };
    after.keeps_ranges();
    Followed { after, sample }
}

/// One step of the decoder: moves the predictor and the scale on, and gives the code's sample.
#[inline(always)]
fn follow_step(rate: Rate, predictor: &mut FramePredictor, scale: &mut Scale, code: u8) -> i16
    requires steps { predictor.old.steps < 160 }
    requires code { code < 2 ^ bits_of rate }
    ensures sample { result ≡ sample_of rate (joined predictor.old scale.old) code }
    ensures within { IsSample result }
    ensures next { joined predictor.new scale.new ≡ state_after rate (joined predictor.old scale.old) code }
    ensures steps { predictor.new.steps ≡ predictor.old.steps + 1 }
{
    let est = predictor.estimate();
    let y = scale.step_size();
    let level = levels(rate, code);
    let g = move_on(rate, predictor, scale, Coded { code, level }, est, y);
    limit(signal_of(est.se, with_sign(level.neg, g)))
}

/// A frame of the decoder: follows its codes one after the other, and puts their samples down.
///
/// Each code has as many bits as the rate gives it; each sample is in -8192..=8191.
pub fn follow_frame(
    rate: Rate,
    before: EncState,
    codes: &[u8; 160],
    samples: &mut [i16; 160],
) -> EncState
    requires { All (λ c. c < 2 ^ bits_of rate) codes.now }
    ensures after { result ≡ after_codes rate before codes.now }
    ensures samples { samples.new ≡ samples_of rate before codes.now }
    ensures within { All IsSample samples.new }
{
    match rate {
        Rate::R16 => follow_at(Rate::R16, before, codes, samples),
        Rate::R24 => follow_at(Rate::R24, before, codes, samples),
        Rate::R32 => follow_at(Rate::R32, before, codes, samples),
        Rate::R40 => follow_at(Rate::R40, before, codes, samples),
    }
}

/// That frame, which the program has once for each rate, as it has the encoder's.
#[inline(always)]
fn follow_at(rate: Rate, before: EncState, codes: &[u8; 160], samples: &mut [i16; 160]) -> EncState
    requires { All (λ c. c < 2 ^ bits_of rate) codes.now }
    ensures after { result ≡ after_codes rate before codes.now }
    ensures samples { samples.new ≡ samples_of rate before codes.now }
    ensures within { All IsSample samples.new }
{
    let mut predictor = FramePredictor::begin(&before.predictor);
    let mut scale = before.scale;
    for i in 0..160usize {
        samples[i] = follow_step(rate, &mut predictor, &mut scale, codes[i]);
    }
    EncState {
        predictor: predictor.predictor(),
        scale,
    }
}
