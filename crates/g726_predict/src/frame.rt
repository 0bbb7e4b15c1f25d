//! The predictor on its way through a frame, whose past differences lie in one row.
//!
//! Rests on `Predictor`, which it stands for at each step: it predicts and adapts as that does.
//! Promises: no difference is moved from one place to the next, and what it stands for is the profile's predictor.

ghost use Rattle.std.specs.Prelude.{◌≡◌, ◌≤◌, ◌<◌, ◌+◌, get_or};
ghost use Rattle.g726_bits.specs.Floats.{ShortFloat, float_zero};
ghost use Rattle.g726_bits.specs.Step.{signal_estimate, partial_estimate, predictor_after, tone_after};

use crate::{Estimate, Past, Poles, Predictor, Zeros};
use g726_bits::{FRAME_SAMPLES, Float11, Rate};
use std::marker::Model;

/// The places of a frame's row: the six differences before it, and one for each sample.
const ROW: usize = FRAME_SAMPLES + 6;

/// A predictor on its way through a frame of at most 160 samples.
///
/// Contracts see it as the predictor that it stands for and the number of steps that it took. The six last differences
/// lie in the row from the place `steps` on, the oldest first.
#[derive(Drop)]
pub struct FramePredictor {
    poles: Poles,
    zeros: Zeros,
    row: [Float11; ROW],
    steps: usize,
}

impl Model for FramePredictor {
    ghost use Rattle.std.specs.Prelude.{◌≡◌, ◌≤◌, length};
    ghost use Rattle.g726_bits.specs.Ranges.{IsStable};
    ghost use Rattle.g726_predict.specs.Rows.{OnFrame, shown_in};

    ghost Value = { OnFrame };

    ghost view = { λ p. record { state = shown_in p; steps = p.steps } };

    ghost invariant = { λ p. IsStable (shown_in p) × (p.steps ≤ 160) };
}

/// A short float, copied field by field.
///
/// A copy of the whole would be read in one piece of memory that was written in several, which the processor waits for.
#[inline(always)]
fn copied(f: &Float11) -> Float11
    ensures { result ≡ f.now }
{
    Float11 {
        neg: f.neg,
        exp: f.exp,
        mant: f.mant,
    }
}

/// The poles, copied field by field for the same reason.
#[inline(always)]
fn copied_poles(poles: &Poles) -> Poles
    ensures { result ≡ poles.now }
{
    Poles {
        a1: poles.a1,
        a2: poles.a2,
        sr1: copied(&poles.sr1),
        sr2: copied(&poles.sr2),
        pk1: poles.pk1,
        pk2: poles.pk2,
        td: poles.td,
    }
}

/// The difference at a place of the row.
#[inline(always)]
fn difference_at(row: &[Float11; ROW], place: usize) -> Float11
    requires { place < 166 }
    ensures { result ≡ get_or row.now place float_zero }
{
    row[place]
}

/// The six differences from a place of the row on, of which the last is the newest.
#[inline(always)]
fn six_from(row: &[Float11; ROW], place: usize) -> Past
    requires { place ≤ 160 }
    ensures { result ≡ record {
      dq1 = get_or row.now (place + 5) float_zero;
      dq2 = get_or row.now (place + 4) float_zero;
      dq3 = get_or row.now (place + 3) float_zero;
      dq4 = get_or row.now (place + 2) float_zero;
      dq5 = get_or row.now (place + 1) float_zero;
      dq6 = get_or row.now place float_zero;
    } }
{
    Past {
        dq1: difference_at(row, place + 5),
        dq2: difference_at(row, place + 4),
        dq3: difference_at(row, place + 3),
        dq4: difference_at(row, place + 2),
        dq5: difference_at(row, place + 1),
        dq6: difference_at(row, place),
    }
}

impl FramePredictor {
    /// A frame's begin: the predictor with no step taken.
    pub fn begin(predictor: &Predictor) -> FramePredictor
        ensures state { result.state ≡ predictor.now }
        ensures steps { result.steps ≡ 0 }
    {
        let past = &predictor.past;
        let mut row = [Float11 {
            neg: false,
            exp: 0,
            mant: 0,
        }; ROW];
        row[0] = past.dq6;
        row[1] = past.dq5;
        row[2] = past.dq4;
        row[3] = past.dq3;
        row[4] = past.dq2;
        row[5] = past.dq1;
        FramePredictor {
            poles: predictor.poles,
            zeros: predictor.zeros,
            row,
            steps: 0,
        }
    }

    /// The predictor that this one stands for.
    #[inline(always)]
    pub fn predictor(&self) -> Predictor
        ensures { result ≡ self.now.state }
    {
        Predictor {
            poles: copied_poles(&self.poles),
            zeros: self.zeros,
            past: six_from(&self.row, self.steps),
        }
    }

    /// Whether the last step found a tone and no transition, as `Predictor::td`.
    #[inline(always)]
    pub fn td(&self) -> bool
        ensures { result ≡ self.now.state.td }
    {
        self.poles.td
    }

    /// The estimates of the next sample, as `Predictor::estimate`.
    #[inline(always)]
    pub fn estimate(&self) -> Estimate
        ensures se { result.se ≡ signal_estimate self.now.state }
        ensures sez { result.sez ≡ partial_estimate self.now.state }
    {
        self.predictor().estimate()
    }

    /// One step more, of at most 160, as `Predictor::adapt`. Gives whether a tone was found.
    #[inline(always)]
    pub fn adapt(&mut self, rate: Rate, neg: bool, g: u16, est: Estimate, tr: bool) -> bool
        requires steps { self.old.steps < 160 }
        requires magnitude { g ≤ 32767 }
        requires se { est.se ≡ signal_estimate self.old.state }
        requires sez { est.sez ≡ partial_estimate self.old.state }
        ensures state { self.new.state ≡ predictor_after rate self.old.state neg g tr }
        ensures steps { self.new.steps ≡ self.old.steps + 1 }
        ensures tone { result ≡ tone_after self.old.state neg g }
    {
        let adapted = self.predictor().adapt(rate, neg, g, est, tr);
        self.poles = adapted.next.poles;
        self.zeros = adapted.next.zeros;
        self.row[self.steps + 6] = adapted.next.past.dq1;
        self.steps += 1;
        adapted.tone
    }
}
