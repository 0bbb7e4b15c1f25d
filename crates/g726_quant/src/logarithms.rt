//! Logarithms to the base 2, times 128, and back (G.726, 4.2.3: LOG, SUBTB; 4.2.4: ADDA, ANTILOG).

ghost use Rattle.std.specs.Prelude.{◌≡◌, ◌≤◌, ◌<◌, ◌+◌, ◌-◌, ◌*◌, ◌/◌, ◌%◌, ◌^◌, ◌+ℤ◌, ◌-ℤ◌, ◌≤ℤ◌, ℕ, ℤ, pos, negsuc, if◌then◌else◌, nat_le};
ghost use Rattle.g726_bits.specs.Numbers.{floor_div, binary_length};
ghost use Rattle.g726_bits.specs.Step.{logarithm, power};

use g726_bits::bit_len;

/// The whole part of a magnitude's logarithm, where that of 0 is 0 (G.726, LOG: EXP).
#[tactic(auto, using(crate::proofs::Powers::has_digits, g726_bits::proofs::Lengths::length_15))]
#[inline]
fn exponent_of(magnitude: u32) -> u32
    requires { magnitude < 2 ^ 15 }
    ensures value { result ≡ (if nat_le magnitude 1 then 0 else binary_length magnitude - 1) }
    ensures within { result ≤ 14 }
{
    if magnitude <= 1 {
        0
    } else {
        bit_len(magnitude) - 1
    }
}

/// The logarithm of a magnitude (G.726, LOG: DL).
#[tactic(auto, unfolding(g726_bits::specs::Step::logarithm))]
#[inline]
pub(crate) fn logarithm_of(magnitude: u32) -> u32
    requires { magnitude < 2 ^ 15 }
    ensures value { result ≡ logarithm magnitude }
    ensures within { result < 1920 }
{
    let exponent = exponent_of(magnitude);
    128 * exponent + ((128 * magnitude) >> exponent) % 128
}

/// 128 times two to the power of a 128th of a logarithm, between whole powers as the logarithm has it.
#[inline]
pub(crate) fn power_from(log: u32) -> u32
    requires { log ≤ 1920 }
    ensures value { result ≡ (128 + log % 128) * 2 ^ (log / 128) }
{
    (128 + log % 128) << (log / 128)
}

/// A logarithm less the scale factor's (G.726, SUBTB: DLN).
#[tactic(auto, using(g726_bits::proofs::Floors::floors))]
#[inline]
pub(crate) fn scaled_down(log: u32, y: u16) -> i32
    requires { log < 1920 }
    ensures { result ≡ pos log -ℤ floor_div (pos y) 4 }
{
    log as i32 - i32::from(y / 4)
}

/// A logarithm with the scale factor's (G.726, ADDA: DQL).
#[tactic(auto, using(g726_bits::proofs::Floors::floors))]
#[inline]
pub(crate) fn log_sum(dqln: i16, y: u16) -> i32
    ensures { result ≡ dqln +ℤ floor_div (pos y) 4 }
{
    i32::from(dqln) + i32::from(y / 4)
}

/// A logarithm with 2048 added.
#[tactic(auto, using(g726_bits::proofs::Floors::floors))]
#[inline]
fn lifted(dql: i32) -> u32
    requires least { negsuc 2047 ≤ℤ dql }
    requires most { dql ≤ℤ pos 1846 }
    ensures value { pos result ≡ dql +ℤ pos 2048 }
    ensures within { result ≤ 3894 }
{
    (dql + 2048) as u32
}

/// Two to the power of a 128th of a logarithm to which 2048 was added: what was below 0 is shifted out.
#[tactic(auto, using(crate::proofs::Powers::power_is, crate::proofs::Powers::lifted_le))]
#[inline]
fn power_lifted(lifted: u32) -> u16
    requires { lifted ≤ 3894 }
    ensures value { result ≡ power (pos lifted -ℤ pos 2048) }
    ensures within { result ≤ 32767 }
{
    (((128 + lifted % 128) * 128) >> (30 - lifted / 128)) as u16
}

/// Two to the power of a 128th of a logarithm, which is 0 below 1 (G.726, ANTILOG).
#[tactic(auto, using(g726_bits::proofs::Floors::plain, crate::proofs::Powers::power_by))]
#[inline]
pub(crate) fn power_of(dql: i32) -> u16
    requires least { negsuc 2047 ≤ℤ dql }
    requires most { dql ≤ℤ pos 1846 }
    ensures value { result ≡ power dql }
    ensures within { result ≤ 32767 }
{
    power_lifted(lifted(dql))
}
