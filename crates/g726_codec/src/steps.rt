//! One step of the encoder, what a code leads to, and a run of steps over a frame.

ghost use Rattle.std.specs.Prelude.{◌≡◌, ◌-ℤ◌, ◌<◌, ◌≤◌, ◌+◌, pos};
ghost use Rattle.g726_bits.specs.Numbers.{word};
ghost use Rattle.g726_bits.specs.Rates.{bits_of};
ghost use Rattle.g726_bits.specs.Ranges.{IsStepSize};
ghost use Rattle.g726_bits.specs.Step.{difference, step_size, signal_estimate, partial_estimate, code_of, is_negative_code, log_level, scale_step, speed_step, coded_magnitude, state_after};
ghost use Rattle.g726_bits.specs.Encoder.{stepped, codes_of, after_samples};
ghost use Rattle.g726_quant.specs.Entries.{IsLogLevel};
ghost use Rattle.g726_codec.specs.Joined.{joined};

use crate::EncState;
use g726_bits::{Rate, w16};
use g726_predict::{Estimate, FramePredictor};
use g726_quant::{Coded, antilog, quantise_level};
use g726_scale::Scale;

/// A sample less its estimate, as a word (G.726, SUBTA: D).
#[tactic(auto, using(g726_bits::proofs::Floors::plain), unfolding(g726_bits::specs::Step::difference))]
#[inline(always)]
fn difference_of(sample: i16, estimate: i16) -> i16
    ensures { result ≡ difference sample estimate }
{
    w16(i64::from(sample) - i64::from(estimate))
}

/// What a code leads to: moves the predictor and the scale on, and gives the magnitude that the code stands for.
///
/// `est` and `y` are the estimate and the step size of the state before.
#[inline(always)]
pub(crate) fn move_on(
    rate: Rate,
    predictor: &mut FramePredictor,
    scale: &mut Scale,
    coded: Coded,
    est: Estimate,
    y: u16,
) -> u16
    requires steps { predictor.old.steps < 160 }
    requires neg { coded.level.neg ≡ is_negative_code rate coded.code }
    requires dqln { coded.level.dqln ≡ log_level rate coded.code }
    requires w { coded.level.w ≡ scale_step rate coded.code }
    requires f { coded.level.f ≡ speed_step rate coded.code }
    requires entry { IsLogLevel coded.level.dqln }
    requires se { est.se ≡ signal_estimate predictor.old.state }
    requires sez { est.sez ≡ partial_estimate predictor.old.state }
    requires step_size { pos y ≡ step_size scale.old }
    requires range { IsStepSize (pos y) }
    ensures g { result ≡ coded_magnitude rate (joined predictor.old scale.old) coded.code }
    ensures within { result ≤ 32767 }
    ensures next { joined predictor.new scale.new ≡ state_after rate (joined predictor.old scale.old) coded.code }
    ensures steps { predictor.new.steps ≡ predictor.old.steps + 1 }
{
    let level = coded.level;
    let g = antilog(level.dqln, y);
    let tr = scale.transition(predictor.td(), g);
    let tone = predictor.adapt(rate, level.neg, g, est, tr);
    *scale = scale.adapt(level.w, level.f, y, tone, tr);
    g
}

/// One step of the encoder: moves the predictor and the scale on, and gives the sample's code.
#[inline(always)]
fn step(rate: Rate, predictor: &mut FramePredictor, scale: &mut Scale, sample: i16) -> u8
    requires steps { predictor.old.steps < 160 }
    ensures code { result ≡ code_of rate (joined predictor.old scale.old) sample }
    ensures next { joined predictor.new scale.new ≡ stepped rate (joined predictor.old scale.old) sample }
    ensures steps { predictor.new.steps ≡ predictor.old.steps + 1 }
{
    let est = predictor.estimate();
    let y = scale.step_size();
    let coded = quantise_level(rate, difference_of(sample, est.se), y);
    move_on(rate, predictor, scale, coded, est, y);
    coded.code
}

/// A run over a frame's samples, which puts their codes down and gives the state after them.
pub(crate) fn run(
    rate: Rate,
    before: EncState,
    samples: &[i16; 160],
    codes: &mut [u8; 160],
) -> EncState
    ensures state { result ≡ after_samples rate before samples.now }
    ensures codes { codes.new ≡ codes_of rate before samples.now }
{
    match rate {
        Rate::R16 => run_at(Rate::R16, before, samples, codes),
        Rate::R24 => run_at(Rate::R24, before, samples, codes),
        Rate::R32 => run_at(Rate::R32, before, samples, codes),
        Rate::R40 => run_at(Rate::R40, before, samples, codes),
    }
}

/// That run, which the program has once for each rate: what depends on the rate alone is then decided before the loop.
#[inline(always)]
fn run_at(rate: Rate, before: EncState, samples: &[i16; 160], codes: &mut [u8; 160]) -> EncState
    ensures state { result ≡ after_samples rate before samples.now }
    ensures codes { codes.new ≡ codes_of rate before samples.now }
{
    let mut predictor = FramePredictor::begin(&before.predictor);
    let mut scale = before.scale;
    for i in 0..160usize {
        codes[i] = step(rate, &mut predictor, &mut scale, samples[i]);
    }
    EncState {
        predictor: predictor.predictor(),
        scale,
    }
}
