// The adaptive predictor of G.726: two poles and six zeros, the signal estimate, and the adaptation after a code.
//
// Rests on g726_bits, whose definitions it meets.
// Promises: the estimate and the next predictor are the profile's, value for value, and the poles stay where it is stable.
#![tactic(auto)]

ghost use Rattle.std.specs.Prelude.{◌≡◌, ◌≤◌, ◌+ℤ◌, ◌%◌, ℕ, ℤ, pos, negsuc, not, ◌&&◌, int_lt, unsigned_abs};
ghost use Rattle.g726_bits.specs.Ranges.{Within, IsStable};
ghost use Rattle.g726_bits.specs.Numbers.{word};
ghost use Rattle.g726_bits.specs.Floats.{product, float_of};
ghost use Rattle.g726_bits.specs.State.{PredictorState, predictor_start};
ghost use Rattle.g726_bits.specs.Step.{signal_estimate, partial_estimate, predictor_after, tone_after, unless_cleared, first_pole, next_zero, is_tone};

use g726_bits::{Float11, Rate, fmult};
use std::marker::Model;

mod frame;
mod pole_steps;
mod sums;
mod zero_steps;

pub use frame::FramePredictor;
use pole_steps::{next_first, next_second, stands_for_tone};
use sums::{half, sum_of_six, sum_of_three, sum_of_two, unless, with_sign};

/// The poles with the signals and signs that move them (G.726, 4.2.6).
///
/// They lie so that none is read together with others that were written apart, at which the processor waits: no exponent
/// at a multiple of four octets, and no sign that moves on beside a signal that does.
#[derive(Clone, Copy, PartialEq, Eq, Debug)]
struct Poles {
    a1: i16,
    a2: i16,
    sr1: Float11,
    pk2: bool,
    sr2: Float11,
    pk1: bool,
    td: bool,
}

/// The six zeros.
#[derive(Clone, Copy, PartialEq, Eq, Hash, Debug)]
struct Zeros {
    b1: i16,
    b2: i16,
    b3: i16,
    b4: i16,
    b5: i16,
    b6: i16,
}

/// The six last quantised differences, the newest first.
#[derive(Clone, Copy, PartialEq, Eq, Debug)]
struct Past {
    dq1: Float11,
    dq2: Float11,
    dq3: Float11,
    dq4: Float11,
    dq5: Float11,
    dq6: Float11,
}

/// The state of the adaptive predictor.
///
/// Contracts see it as one record in the Recommendation's names. Its poles keep the bounds of stability:
/// |a2| at most 12288, and |a1| at most 15360 - a2. It is compared as a whole, and hashed by its zeros alone, in which two that
/// differ hardly ever agree.
#[derive(Clone, Copy, PartialEq, Eq, Debug)]
#[derive_where(Hash)]
pub struct Predictor {
    #[derive_where(skip(Hash))]
    poles: Poles,
    zeros: Zeros,
    #[derive_where(skip(Hash))]
    past: Past,
}

impl Model for Predictor {
    ghost use Rattle.g726_bits.specs.State.{PredictorState};
    ghost use Rattle.g726_bits.specs.Ranges.{IsStable};

    ghost Value = { PredictorState };

    ghost use Rattle.g726_predict.specs.Shown.{shown, grouped};

    ghost view = { shown };

    ghost invariant = { λ p. IsStable (shown p) };

    ghost inverse = { grouped };
}

/// The two estimates of a sample: of poles and zeros, and of the zeros alone (G.726, ACCUM: SE and SEZ).
#[derive(Clone, Copy, PartialEq, Eq, Debug)]
pub struct Estimate {
    pub se: i16,
    pub sez: i16,
}

/// A predictor after a step, and whether the step found a tone.
#[derive(Clone, Copy, PartialEq, Eq, Debug)]
pub struct Adapted {
    pub next: Predictor,
    pub tone: bool,
}

impl Predictor {
    /// The predictor that a reset sets.
    #[tactic(auto, unfolding(g726_bits::specs::State::predictor_start))]
    pub fn start() -> Predictor
        ensures { result ≡ predictor_start }
    {
        let zero = Float11 {
            neg: false,
            exp: 0,
            mant: 32,
        };
        Predictor {
            poles: Poles {
                a1: 0,
                a2: 0,
                sr1: zero,
                sr2: zero,
                pk1: false,
                pk2: false,
                td: false,
            },
            zeros: Zeros {
                b1: 0,
                b2: 0,
                b3: 0,
                b4: 0,
                b5: 0,
                b6: 0,
            },
            past: Past {
                dq1: zero,
                dq2: zero,
                dq3: zero,
                dq4: zero,
                dq5: zero,
                dq6: zero,
            },
        }
    }

    /// Whether the last step found a tone and no transition (G.726, TONE and TRIGB: TD).
    #[inline(always)]
    pub fn td(&self) -> bool
        ensures { result ≡ self.now.td }
    {
        self.poles.td
    }

    /// The estimates of the next sample (G.726, 4.2.6: FMULT, ACCUM).
    #[tactic(auto, using(g726_bits::proofs::Floors::plain), unfolding(g726_bits::specs::Step::zeros_sum, g726_bits::specs::Step::whole_sum, g726_bits::specs::Step::signal_estimate, g726_bits::specs::Step::partial_estimate))]
    #[inline(always)]
    pub fn estimate(&self) -> Estimate
        ensures se { result.se ≡ signal_estimate self.now }
        ensures sez { result.sez ≡ partial_estimate self.now }
        ensures stable { IsStable self.now }
    {
        let zeros = zeros_part(&self.zeros, &self.past);
        let whole = whole_part(zeros, &self.poles);
        Estimate {
            se: half(whole),
            sez: half(zeros),
        }
    }

    /// The predictor after a code, and whether a tone was found (G.726, 4.2.6 to 4.2.8).
    ///
    /// `neg` and `g` are the sign and the magnitude of the quantised difference, `est` is this predictor's estimate, and
    /// `tr` says that a transition was found, which clears poles and zeros.
    #[tactic(auto, using(g726_bits::proofs::Floors::plain), unfolding(g726_bits::specs::Step::predictor_after, g726_bits::specs::Step::tone_after, g726_bits::specs::Step::pole_after, g726_bits::specs::Step::partial_signal, g726_bits::specs::Step::reconstructed))]
    #[inline(always)]
    pub fn adapt(&self, rate: Rate, neg: bool, g: u16, est: Estimate, tr: bool) -> Adapted
        requires magnitude { g ≤ 32767 }
        requires se { est.se ≡ signal_estimate self.now }
        requires sez { est.sez ≡ partial_estimate self.now }
        ensures next { result.next ≡ predictor_after rate self.now neg g tr }
        ensures tone { result.tone ≡ tone_after self.now neg g }
        ensures stable { IsStable result.next }
    {
        let dq = with_sign(neg, g);
        let sr = sum_of_two(est.se, dq);
        let dqsez = sum_of_two(est.sez, dq);
        let a2p = next_second(
            self.poles.a1,
            self.poles.a2,
            self.poles.pk1,
            self.poles.pk2,
            dqsez,
        );
        let next = Predictor {
            poles: next_poles(&self.poles, a2p, sr, dqsez, tr),
            zeros: next_zeros(&self.zeros, &self.past, rate, neg, g, tr),
            past: next_past(&self.past, neg, g),
        };
        Adapted {
            next,
            tone: stands_for_tone(a2p),
        }
    }
}

/// A signal as a short float, its magnitude on 15 bits (G.726, FLOATB).
#[tactic(auto, using(g726_bits::proofs::Floors::plain))]
#[inline(always)]
fn float_of_signal(sr: i16) -> Float11
    ensures { result ≡ float_of (int_lt sr (pos 0)) (unsigned_abs sr % 32768) }
{
    Float11::of(sr < 0, sr.unsigned_abs() % 32768)
}

/// The poles after a step, where the second one is `a2p` before a transition clears it.
#[tactic(auto, using(g726_bits::proofs::Floors::plain))]
#[inline(always)]
fn next_poles(poles: &Poles, a2p: i16, sr: i16, dqsez: i16, tr: bool) -> Poles
    requires { Within (negsuc 12287) (pos 12288) a2p }
    ensures { result ≡ record {
      a1 = unless_cleared tr (first_pole poles.now.a1 poles.now.pk1 a2p dqsez);
      a2 = unless_cleared tr a2p;
      sr1 = float_of (int_lt sr (pos 0)) (unsigned_abs sr % 32768);
      sr2 = poles.now.sr1;
      pk1 = int_lt dqsez (pos 0);
      pk2 = poles.now.pk1;
      td = not tr && is_tone a2p;
    } }
{
    Poles {
        a1: unless(tr, next_first(poles.a1, poles.pk1, a2p, dqsez)),
        a2: unless(tr, a2p),
        sr1: float_of_signal(sr),
        sr2: poles.sr1,
        pk1: dqsez < 0,
        pk2: poles.pk1,
        td: !tr && stands_for_tone(a2p),
    }
}

/// The zeros after a step. A transition, which is rare, clears all of them at once.
#[tactic(auto, using(g726_bits::proofs::Floors::plain), unfolding(g726_bits::specs::Step::unless_cleared))]
#[inline(always)]
fn next_zeros(zeros: &Zeros, past: &Past, rate: Rate, neg: bool, g: u16, tr: bool) -> Zeros
    ensures { result ≡ record {
      b1 = unless_cleared tr (next_zero rate neg g zeros.now.b1 past.now.dq1);
      b2 = unless_cleared tr (next_zero rate neg g zeros.now.b2 past.now.dq2);
      b3 = unless_cleared tr (next_zero rate neg g zeros.now.b3 past.now.dq3);
      b4 = unless_cleared tr (next_zero rate neg g zeros.now.b4 past.now.dq4);
      b5 = unless_cleared tr (next_zero rate neg g zeros.now.b5 past.now.dq5);
      b6 = unless_cleared tr (next_zero rate neg g zeros.now.b6 past.now.dq6);
    } }
{
    if tr {
        Zeros {
            b1: 0,
            b2: 0,
            b3: 0,
            b4: 0,
            b5: 0,
            b6: 0,
        }
    } else {
        Zeros {
            b1: zero_steps::next(rate, neg, g, zeros.b1, past.dq1),
            b2: zero_steps::next(rate, neg, g, zeros.b2, past.dq2),
            b3: zero_steps::next(rate, neg, g, zeros.b3, past.dq3),
            b4: zero_steps::next(rate, neg, g, zeros.b4, past.dq4),
            b5: zero_steps::next(rate, neg, g, zeros.b5, past.dq5),
            b6: zero_steps::next(rate, neg, g, zeros.b6, past.dq6),
        }
    }
}

/// The differences after a step, the new one first (G.726, FLOATA, DELAY).
#[tactic(auto, using(g726_bits::proofs::Floors::plain))]
#[inline(always)]
fn next_past(past: &Past, neg: bool, g: u16) -> Past
    requires { g ≤ 32767 }
    ensures { result ≡ record {
      dq1 = float_of neg g;
      dq2 = past.now.dq1;
      dq3 = past.now.dq2;
      dq4 = past.now.dq3;
      dq5 = past.now.dq4;
      dq6 = past.now.dq5;
    } }
{
    Past {
        dq1: Float11::of(neg, g),
        dq2: past.dq1,
        dq3: past.dq2,
        dq4: past.dq3,
        dq5: past.dq4,
        dq6: past.dq5,
    }
}

/// The sum of the six zeros' products (G.726, ACCUM: SEZI).
#[tactic(auto, using(g726_bits::proofs::Floors::plain))]
#[inline(always)]
fn zeros_part(zeros: &Zeros, past: &Past) -> i16
    ensures { result ≡ word
        (product zeros.now.b1 past.now.dq1 +ℤ product zeros.now.b2 past.now.dq2 +ℤ product zeros.now.b3 past.now.dq3 +ℤ
        product zeros.now.b4 past.now.dq4 +ℤ product zeros.now.b5 past.now.dq5 +ℤ product zeros.now.b6 past.now.dq6) }
{
    sum_of_six(
        fmult(zeros.b1, past.dq1),
        fmult(zeros.b2, past.dq2),
        fmult(zeros.b3, past.dq3),
        fmult(zeros.b4, past.dq4),
        fmult(zeros.b5, past.dq5),
        fmult(zeros.b6, past.dq6),
    )
}

/// That sum with the two poles' products (G.726, ACCUM: SEI).
#[tactic(auto, using(g726_bits::proofs::Floors::plain))]
#[inline(always)]
fn whole_part(zeros: i16, poles: &Poles) -> i16
    ensures { result ≡ word (zeros +ℤ product poles.now.a2 poles.now.sr2 +ℤ product poles.now.a1 poles.now.sr1) }
{
    sum_of_three(
        zeros,
        fmult(poles.a2, poles.sr2),
        fmult(poles.a1, poles.sr1),
    )
}

#[cfg(test)]
mod tests {
    use super::*;
    use std::test::Fail;

    /// One step by its own estimate, and the estimate after it.
    fn stepped(p: &Predictor, rate: Rate, neg: bool, g: u16, tr: bool) -> (Adapted, Estimate)
        requires { g ≤ 32767 }
    {
        let adapted = p.adapt(rate, neg, g, p.estimate(), tr);
        let next = adapted.next;
        (adapted, next.estimate())
    }

    #[test]
    fn estimates_follow_and_a_tone_is_found_until_a_transition(
        rt: HostRuntime,
    ) -> Result<(), Fail> {
        let start = Predictor::start();
        assert_eq!(rt; start.estimate(), Estimate { se: 0, sez: 0 });
        let steps = [
            (Rate::R32, false, 100u16, 1, 0),
            (Rate::R32, true, 40, 0, 0),
            (Rate::R40, false, 0, 0, 0),
            (Rate::R24, true, 0, 0, 0),
            (Rate::R40, true, 32767, 125, -259),
            (Rate::R40, false, 32640, -252, 520),
            (Rate::R16, false, 32767, -1678, -757),
            (Rate::R40, true, 20000, -25, -537),
        ];
        let mut p = start;
        for (rate, neg, g, se, sez) in steps {
            if g <= 32767 {
                let (adapted, estimate) = stepped(&p, rate, neg, g, false);
                assert_eq!(rt; estimate, Estimate { se, sez }, "after {g}");
                assert!(rt; !adapted.tone);
                p = adapted.next;
            }
        }
        assert!(rt; p != start);

        // A tone of a quarter of the sampling rate: found at step 173, and gone with a transition.
        p = start;
        for i in 0..173u32 {
            let (adapted, _) = stepped(&p, Rate::R32, i / 2 % 2 == 1, 3000, false);
            assert!(rt; !adapted.tone, "no tone at {i}");
            p = adapted.next;
        }
        let (adapted, estimate) = stepped(&p, Rate::R32, false, 3000, false);
        assert!(rt; adapted.tone);
        let tone = adapted.next;
        assert!(rt; tone.td());
        assert_eq!(rt;
            estimate,
            Estimate {
                se: 634,
                sez: -8452
            }
        );
        let (adapted, estimate) = stepped(&tone, Rate::R32, false, 3000, true);
        assert!(rt; adapted.tone);
        let cleared = adapted.next;
        assert!(rt; !cleared.td());
        assert_eq!(rt; estimate, Estimate { se: 1, sez: 0 });
        Ok(())
    }
}
