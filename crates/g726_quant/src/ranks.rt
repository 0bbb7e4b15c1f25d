//! The count of the thresholds (G.726, 4.2.3: QUAN): each is compared, and no branch hangs on the signal.

ghost use Rattle.std.specs.Prelude.{◌≡◌, ◌≤◌, ◌<◌, ◌+◌, ◌-◌, ◌/◌, ◌^◌, ◌-ℤ◌, ℕ, ℤ, pos, negsuc, cond, int_le, min};
ghost use Rattle.g726_bits.specs.Numbers.{floor_div};
ghost use Rattle.g726_bits.specs.declared.Rate.TheVariants.{R16, R24, R32, R40};
ghost use Rattle.g726_bits.specs.Rates.{bits_of};
ghost use Rattle.g726_bits.specs.Step.{logarithm, rank};

use crate::logarithms::{logarithm_of, power_from, scaled_down};
use g726_bits::Rate;

/// One, where a threshold isn't above a logarithm, else none.
#[inline]
fn reached(threshold: i32, dln: i32) -> u8
    ensures value { result ≡ cond (int_le threshold dln) 1 0 }
    ensures within { result ≤ 1 }
{
    u8::from(threshold <= dln)
}

/// The only threshold at 16 kbit/s, with the scale factor's logarithm; past 1920 there is no magnitude's logarithm.
#[inline]
fn threshold_16(y: u16) -> u32
    ensures { result ≡ min (261 + y / 4) 1920 }
{
    (261 + u32::from(y / 4)).min(1920)
}

/// At 16 kbit/s. The magnitude is compared itself, so that nothing waits for its logarithm.
#[tactic(auto, using(g726_bits::proofs::Floors::floors, crate::proofs::Thresholds::has_threshold), unfolding(g726_bits::specs::Step::rank))]
#[inline]
fn rank_16(magnitude: u32, y: u16) -> u8
    requires { magnitude < 2 ^ 15 }
    ensures value { result ≡ rank R16 (pos (logarithm magnitude) -ℤ floor_div (pos y) 4) }
    ensures within { result ≤ 1 }
{
    u8::from(power_from(threshold_16(y)) <= 128 * magnitude)
}

/// At 24 kbit/s.
#[tactic(auto, using(g726_bits::proofs::Floors::floors), unfolding(g726_bits::specs::Step::rank))]
#[inline]
fn rank_24(dln: i32) -> u8
    ensures value { result ≡ rank R24 dln }
    ensures within { result ≤ 3 }
{
    reached(8, dln) + reached(218, dln) + reached(331, dln)
}

/// At 32 kbit/s.
#[tactic(auto, using(g726_bits::proofs::Floors::floors), unfolding(g726_bits::specs::Step::rank))]
#[inline]
fn rank_32(dln: i32) -> u8
    ensures value { result ≡ rank R32 dln }
    ensures within { result ≤ 7 }
{
    reached(-124, dln)
        + reached(80, dln)
        + reached(178, dln)
        + reached(246, dln)
        + reached(300, dln)
        + reached(349, dln)
        + reached(400, dln)
}

/// At 40 kbit/s.
#[tactic(auto, using(g726_bits::proofs::Floors::floors), unfolding(g726_bits::specs::Step::rank))]
#[inline]
fn rank_40(dln: i32) -> u8
    ensures value { result ≡ rank R40 dln }
    ensures within { result ≤ 15 }
{
    reached(-122, dln)
        + reached(-16, dln)
        + reached(68, dln)
        + reached(139, dln)
        + reached(198, dln)
        + reached(250, dln)
        + reached(298, dln)
        + reached(339, dln)
        + reached(378, dln)
        + reached(413, dln)
        + reached(445, dln)
        + reached(475, dln)
        + reached(502, dln)
        + reached(528, dln)
        + reached(553, dln)
}

/// How many thresholds of a rate aren't above a magnitude's logarithm less the scale factor's.
#[tactic(auto, using(g726_bits::proofs::Floors::plain))]
#[inline]
pub(crate) fn rank_of(rate: Rate, magnitude: u32, y: u16) -> u8
    requires { magnitude < 2 ^ 15 }
    ensures value { result ≡ rank rate (pos (logarithm magnitude) -ℤ floor_div (pos y) 4) }
    ensures within { result ≤ 2 ^ bits_of rate - 1 }
{
    match rate {
        Rate::R16 => rank_16(magnitude, y),
        Rate::R24 => rank_24(scaled_down(logarithm_of(magnitude), y)),
        Rate::R32 => rank_32(scaled_down(logarithm_of(magnitude), y)),
        Rate::R40 => rank_40(scaled_down(logarithm_of(magnitude), y)),
    }
}
