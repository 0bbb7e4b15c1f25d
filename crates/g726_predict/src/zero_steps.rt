//! The adaptation of the six zeros (G.726, 4.2.6: XOR, UPB).

ghost use Rattle.std.specs.Prelude.{◌≡◌, ◌≤◌, ◌==◌, ◌+ℤ◌, ◌-ℤ◌, ◌≤ℤ◌, ℕ, ℤ, pos, negsuc, if◌then◌else◌};
ghost use Rattle.g726_bits.specs.Numbers.{floor_div, word};
ghost use Rattle.g726_bits.specs.Ranges.{Within};
ghost use Rattle.g726_bits.specs.Step.{leak, zero_step, next_zero};

use g726_bits::{Float11, Rate, signed_by, w16};

/// The length of a zero's step: none without a difference.
#[inline(always)]
fn length_of_step(g: u16) -> u16
    ensures value { result ≡ (if g == 0 then 0 else 128) }
    ensures within { result ≤ 128 }
{
    if g == 0 { 0 } else { 128 }
}

/// The step of a zero, by the signs of the new difference and its own (G.726, XOR: U; UPB: UGB).
#[tactic(auto, using(g726_bits::proofs::Floors::plain, crate::proofs::Parts::zero_step_is))]
#[inline(always)]
fn step(negative: bool, g: u16, dq: Float11) -> i32
    ensures value { result ≡ zero_step negative g dq }
    ensures within { Within (negsuc 127) (pos 128) result }
{
    i32::from(signed_by(negative, dq.neg, length_of_step(g)))
}

/// What a zero loses in a step: a 256th, at 40 kbit/s a 512th.
#[tactic(auto, using(g726_bits::proofs::Floors::floors), unfolding(g726_bits::specs::Step::leak))]
#[inline(always)]
fn lost(rate: Rate, b: i16) -> i32
    ensures value { result ≡ floor_div b (leak rate) }
    ensures within { Within (negsuc 127) (pos 127) result }
{
    let b = i32::from(b);
    match rate {
        Rate::R16 => b >> 8,
        Rate::R24 => b >> 8,
        Rate::R32 => b >> 8,
        Rate::R40 => b >> 9,
    }
}

/// A number less what it loses, and a step.
#[tactic(auto, using(g726_bits::proofs::Floors::floors))]
#[inline(always)]
fn moved(b: i16, lost: i32, step: i32) -> i32
    requires lost { Within (negsuc 127) (pos 127) lost }
    requires step { Within (negsuc 127) (pos 128) step }
    ensures { result ≡ b -ℤ lost +ℤ step }
{
    i32::from(b) - lost + step
}

/// A zero after a step (G.726, UPB: BP).
#[tactic(auto, using(g726_bits::proofs::Floors::plain), unfolding(g726_bits::specs::Step::next_zero))]
#[inline(always)]
pub(crate) fn next(rate: Rate, negative: bool, g: u16, b: i16, dq: Float11) -> i16
    ensures { result ≡ next_zero rate negative g b dq }
{
    w16(i64::from(moved(b, lost(rate, b), step(negative, g, dq))))
}
