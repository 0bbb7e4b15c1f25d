//! Codes: a rank with a sign, which the upper half of the codes has.

ghost use Rattle.std.specs.Prelude.{◌≡◌, ◌≤◌, ◌<◌, ◌-◌, ◌*◌, ◌^◌, ◌==◌, ◌&&◌, ◌||◌, nat_lt, ℕ, if◌then◌else◌};
ghost use Rattle.g726_bits.specs.Rates.{bits_of};
ghost use Rattle.g726_bits.specs.Step.{is_negative_code, level_of};

use g726_bits::Rate;

/// The greatest code of a rate.
#[inline]
fn last_code(rate: Rate) -> u8
    ensures { result ≡ 2 ^ bits_of rate - 1 }
{
    match rate {
        Rate::R16 => 3,
        Rate::R24 => 7,
        Rate::R32 => 15,
        Rate::R40 => 31,
    }
}

/// The first code with a sign, and the number of codes without one.
#[inline]
fn half_of(rate: Rate) -> u8
    ensures value { result ≡ 2 ^ (bits_of rate - 1) }
    ensures twice { 2 * result ≡ 2 ^ bits_of rate }
{
    match rate {
        Rate::R16 => 2,
        Rate::R24 => 4,
        Rate::R32 => 8,
        Rate::R40 => 16,
    }
}

/// Whether the code of a rank has a sign: a negative difference's has, and that of rank 0, but at 16 kbit/s.
#[inline]
pub(crate) fn has_sign(rate: Rate, negative: bool, rank: u8) -> bool
    ensures { result ≡ negative || ((rank == 0) && nat_lt 2 (bits_of rate)) }
{
    negative | ((rank == 0) & (rate.bits() > 2))
}

/// The code of a rank, which counts from the last code down where it has a sign (G.726, QUAN: I).
#[inline]
pub(crate) fn coded(rate: Rate, signed: bool, rank: u8) -> u8
    requires { rank ≤ 2 ^ bits_of rate - 1 }
    ensures { result ≡ (if signed then (2 ^ bits_of rate - 1) - rank else rank) }
{
    let last = last_code(rate);
    if signed { last - rank } else { rank }
}

/// Whether a code has a sign (G.726, RECONST: DQS).
#[tactic(auto, unfolding(g726_bits::specs::Step::is_negative_code))]
#[inline]
pub(crate) fn is_negative(rate: Rate, code: u8) -> bool
    ensures { result ≡ is_negative_code rate code }
{
    half_of(rate) <= code
}

/// The place of a code's level in the tables of its rate.
#[tactic(auto, unfolding(g726_bits::specs::Step::is_negative_code, g726_bits::specs::Step::level_of))]
#[inline]
pub(crate) fn place_of(rate: Rate, code: u8) -> usize
    requires { code < 2 ^ bits_of rate }
    ensures value { result ≡ level_of rate code }
    ensures within { result < 2 ^ (bits_of rate - 1) }
{
    let half = half_of(rate);
    let last = last_code(rate);
    if half <= code {
        usize::from(last - code)
    } else {
        usize::from(code)
    }
}
