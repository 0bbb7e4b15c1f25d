//! The arithmetic that every block of the codec rests on.

ghost use Rattle.std.specs.Prelude.{◌≡◌, ℕ, ℤ, pos, negsuc, ◌^◌, ◌≤◌, ◌<◌, ◌*◌, ◌/◌, ◌%◌, ◌+◌, ◌-◌, ◌≤ℤ◌, cond};
ghost use Rattle.g726_bits.specs.Numbers.{word, floor_div, binary_length, signed};
ghost use Rattle.g726_bits.specs.Floats.{coefficient_magnitude, mantissa, mantissa_product, scaled, differ, product};

use crate::Float11;

/// The 16-bit word of two's complement that is `v` modulo 2^16.
#[tactic(auto, unfolding(crate::specs::Numbers::word))]
#[inline(always)]
pub fn w16(v: i64) -> i16
    ensures { result ≡ word v }
{
    let low = v.rem_euclid(65536);
    if low < 32768 {
        low as i16
    } else {
        (low - 65536) as i16
    }
}

/// The greatest whole number not above `v / 2^by`. `by` is at most 62.
pub fn floor_shift(v: i64, by: u32) -> i64
    requires { by ≤ 62 }
    ensures { result ≡ floor_div v (2 ^ by) }
{
    v >> by
}

/// The number of binary digits of `v`; 0 has none.
#[inline(always)]
pub fn bit_len(v: u32) -> u32
    ensures value { result ≡ binary_length v }
    ensures within { result ≤ 32 }
{
    32 - v.leading_zeros()
}

/// Four times a coefficient's magnitude, which is a fourth of it on 13 bits (G.726, FMULT).
///
/// What is shifted right and left again loses its two last digits, which the processor does in one step without a shift.
#[tactic(auto, using(crate::proofs::FloatLemmas::four_fourths), unfolding(crate::specs::Floats::coefficient_magnitude))]
#[inline(always)]
fn four_fourths(c: i16) -> u32
    ensures value { result ≡ 4 * coefficient_magnitude c }
    ensures within { result < 32768 }
{
    ((i32::from(c) >> 2) * 4).unsigned_abs() % 32768
}

/// One more than the number of binary digits of a magnitude, which is given four times.
#[inline(always)]
fn length_of_fourth(four: u32) -> u32
    requires whole { four % 4 ≡ 0 }
    requires within { four < 2 ^ 15 }
    ensures value { result ≡ binary_length (four / 4) + 1 }
    ensures within { result ≤ 14 }
{
    31 - (four + 2).leading_zeros()
}

/// The mantissa of a magnitude, which is given four times.
#[inline(always)]
fn mantissa_of_fourth(four: u32) -> u32
    requires whole { four % 4 ≡ 0 }
    requires within { four < 2 ^ 15 }
    ensures value { result ≡ mantissa (four / 4) }
    ensures within { result < 64 }
{
    ((32 * four) >> length_of_fourth(four)) | 32
}

/// The number of binary digits of a magnitude below 2^15.
///
/// It is one less than that of an odd number, which the processor finds with no case for 0.
#[inline(always)]
fn length_of(magnitude: u32) -> u32
    requires { magnitude < 2 ^ 15 }
    ensures value { result ≡ binary_length magnitude }
    ensures within { result ≤ 15 }
{
    31 - (2 * magnitude + 1).leading_zeros()
}

/// The mantissa of a magnitude: its first six binary digits, and a half for 0 (G.726, FLOATA).
#[inline(always)]
fn mantissa_of(magnitude: u32) -> u32
    requires { magnitude < 2 ^ 15 }
    ensures value { result ≡ mantissa magnitude }
    ensures within { result < 64 }
{
    ((64 * magnitude) >> length_of(magnitude)) | 32
}

/// The product of two mantissas, rounded to eight bits (G.726, FMULT).
#[tactic(auto, unfolding(crate::specs::Floats::mantissa_product))]
#[inline(always)]
fn rounded_product(m: u32, n: u32) -> u32
    requires left { m < 64 }
    requires right { n < 64 }
    ensures value { result ≡ mantissa_product m n }
    ensures within { result < 252 }
{
    (m * n + 48) / 16
}

impl Float11 {
    ghost use Rattle.g726_bits.specs.Floats.{float_of};

    /// The float of a magnitude below 2^15 with a sign, which 0 has too (G.726, 4.2.6: FLOATA, FLOATB).
    #[tactic(auto, using(crate::proofs::Lengths::lengths), unfolding(crate::specs::Floats::float_of))]
    #[inline(always)]
    pub fn of(neg: bool, magnitude: u16) -> Float11
        requires { magnitude < 2 ^ 15 }
        ensures { result ≡ float_of neg magnitude }
    {
        let magnitude = u32::from(magnitude);
        Float11 {
            neg,
            exp: length_of(magnitude) as u8,
            mant: mantissa_of(magnitude) as u8,
        }
    }
}

/// A mantissa scaled by its exponent, of which one more is given, on 15 bits (G.726, FMULT).
///
/// In 64 bits the exponent is one shift to the left, and no count has to be taken from another. Sixteen times the mantissa
/// is what the product had before its last four digits went, so that nothing is shifted for them.
#[inline(always)]
fn scale_mantissa(more: u32, mant: u32) -> u16
    requires some { 1 ≤ more }
    requires exponent { more ≤ 29 }
    requires mantissa { mant < 252 }
    ensures value { result ≡ scaled (more - 1) mant }
    ensures within { result < 2 ^ 15 }
{
    (((u64::from(16 * mant) << more) >> 24) % 32768) as u16
}

/// Sixteen ones where something holds, else none.
#[inline(always)]
fn ones_where(holds: bool) -> u16
    ensures { result ≡ cond holds 65535 0 }
{
    65535 * u16::from(holds)
}

/// A magnitude with a minus sign where exactly one of two signs is set (G.726, FMULT and UPB).
///
/// The signs are masks, which turn the magnitude with no branch.
#[tactic(auto, using(crate::proofs::Masks::turned))]
#[inline(always)]
pub fn signed_by(first: bool, second: bool, magnitude: u16) -> i16
    requires { magnitude < 2 ^ 15 }
    ensures { result ≡ signed (differ first second) magnitude }
{
    let mask = ones_where(first) ^ ones_where(second);
    (i32::from(magnitude ^ mask) - i32::from(mask)) as i16
}

/// The product of a coefficient and a short float (G.726, FMULT).
#[tactic(auto, using(crate::proofs::Floors::plain, crate::proofs::Lengths::lengths), unfolding(crate::specs::Floats::product))]
#[inline(always)]
pub fn fmult(c: i16, f: Float11) -> i16
    ensures { result ≡ product c f }
{
    let four = four_fourths(c);
    let more = length_of_fourth(four) + u32::from(f.exp);
    let mant = rounded_product(mantissa_of_fourth(four), u32::from(f.mant));
    signed_by(c < 0, f.neg, scale_mantissa(more, mant))
}
