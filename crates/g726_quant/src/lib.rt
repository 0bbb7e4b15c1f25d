// The quantiser of G.726 and its inverse: a difference to a code, a code to its level, a level to a magnitude.
//
// Rests on g726_bits, whose definitions it meets.
// Promises: each code is the count of thresholds that the profile gives, found by another search, and each level and
// magnitude is the profile's, value for value.
#![tactic(auto)]

ghost use Rattle.std.specs.Prelude.{◌≡◌, ◌≤◌, ◌<◌, ◌-◌, ◌^◌, ℕ, ℤ, pos};
ghost use Rattle.g726_bits.specs.Rates.{bits_of};
ghost use Rattle.g726_bits.specs.Ranges.{IsStepSize};
ghost use Rattle.g726_bits.specs.Step.{normalised, rank, quantised, level_of, is_negative_code, log_level, scale_step, speed_step, magnitude};
ghost use Rattle.g726_quant.specs.Entries.{IsLogLevel};

use g726_bits::Rate;

mod codes;
mod logarithms;
mod ranks;
mod tables;

use codes::{coded, has_sign, is_negative, place_of};
use logarithms::{log_sum, power_of};
use ranks::rank_of;
use tables::{log_level_at, scale_step_at, speed_step_at};

/// What a code stands for: the sign of the difference, its normalised logarithm, what it adds to the scale factor,
/// and how fast it lets the adaptation be (G.726, RECONST: DQS and DQLN; FUNCTW: W; FUNCTF: F).
#[derive(Clone, Copy, PartialEq, Eq, Debug)]
pub struct Level {
    pub neg: bool,
    pub dqln: i16,
    pub w: i16,
    pub f: u8,
}

/// A code with what it stands for.
#[derive(Clone, Copy, PartialEq, Eq, Debug)]
pub struct Coded {
    pub code: u8,
    pub level: Level,
}

/// The number of thresholds that aren't above a difference under a scale factor (G.726, 4.2.3: LOG, SUBTB, QUAN).
#[tactic(auto, using(g726_bits::proofs::Floors::plain, crate::proofs::CodeLevels::rank_lt), unfolding(g726_bits::specs::Step::normalised))]
#[inline(always)]
fn rank_under(rate: Rate, d: i16, y: u16) -> u8
    ensures value { result ≡ rank rate (normalised d (pos y)) }
    ensures within { result < 2 ^ (bits_of rate - 1) }
{
    let magnitude = u32::from(d.unsigned_abs()) % 32768;
    rank_of(rate, magnitude, y)
}

/// The code of a difference under a scale factor (G.726, 4.2.3: LOG, SUBTB, QUAN).
///
/// At 24, 32 and 40 kbit/s the code of all ones stands for 0, and the code 0 is never given.
#[inline(always)]
pub fn quantise(rate: Rate, d: i16, y: u16) -> u8
    ensures value { result ≡ quantised rate d (pos y) }
    ensures within { result < 2 ^ bits_of rate }

    // The code's level is the number of thresholds that aren't above the difference, and 0 is a code at 16 kbit/s alone.
    ensures level { level_of rate result ≡ rank rate (normalised d (pos y)) }
    ensures sent { 2 < bits_of rate → 0 < result }
{
    quantise_level(rate, d, y).code
}

/// The code of a difference under a scale factor, with what it stands for: `quantise`, and `levels` of its code.
///
/// The code's place in the tables is the rank that it was made of, so nothing is searched again.
#[inline(always)]
pub fn quantise_level(rate: Rate, d: i16, y: u16) -> Coded
    ensures value { result.code ≡ quantised rate d (pos y) }
    ensures within { result.code < 2 ^ bits_of rate }
    ensures neg { result.level.neg ≡ is_negative_code rate result.code }
    ensures dqln { result.level.dqln ≡ log_level rate result.code }
    ensures w { result.level.w ≡ scale_step rate result.code }
    ensures f { result.level.f ≡ speed_step rate result.code }
    ensures entry { IsLogLevel result.level.dqln }
{
    let rank = rank_under(rate, d, y);
    let signed = has_sign(rate, d < 0, rank);
    let place = usize::from(rank);
    Coded {
        code: coded(rate, signed, rank),
        level: Level {
            neg: signed,
            dqln: log_level_at(rate, place),
            w: scale_step_at(rate, place),
            f: speed_step_at(rate, place),
        },
    }
}

/// What a code stands for (G.726, 4.2.4: RECONST, FUNCTW, FUNCTF). The code is below 2 to the power of the rate's bits.
#[tactic(auto, using(g726_bits::proofs::Floors::plain), unfolding(g726_bits::specs::Step::log_level, g726_bits::specs::Step::scale_step, g726_bits::specs::Step::speed_step))]
#[inline(always)]
pub fn levels(rate: Rate, code: u8) -> Level
    requires { code < 2 ^ bits_of rate }
    ensures neg { result.neg ≡ is_negative_code rate code }
    ensures dqln { result.dqln ≡ log_level rate code }
    ensures w { result.w ≡ scale_step rate code }
    ensures f { result.f ≡ speed_step rate code }
    ensures entry { IsLogLevel result.dqln }
{
    let place = place_of(rate, code);
    Level {
        neg: is_negative(rate, code),
        dqln: log_level_at(rate, place),
        w: scale_step_at(rate, place),
        f: speed_step_at(rate, place),
    }
}

/// The magnitude of a level under a scale factor of 544..=5120 (G.726, 4.2.4: ADDA, ANTILOG).
///
/// `dqln` is the logarithm of some code's level.
#[tactic(auto, using(g726_bits::proofs::Floors::plain), unfolding(g726_bits::specs::Step::magnitude))]
#[inline(always)]
pub fn antilog(dqln: i16, y: u16) -> u16
    requires entry { IsLogLevel dqln }
    requires step_size { IsStepSize (pos y) }
    ensures value { result ≡ magnitude dqln (pos y) }
    ensures within { result ≤ 32767 }
{
    power_of(log_sum(dqln, y))
}

#[cfg(test)]
mod tests {
    use super::*;
    use std::test::Fail;

    /// The number of codes of a rate.
    fn codes_of(rate: Rate) -> u8
        ensures { result ≡ 2 ^ bits_of rate }
    {
        match rate {
            Rate::R16 => 4,
            Rate::R24 => 8,
            Rate::R32 => 16,
            Rate::R40 => 32,
        }
    }

    /// The level of a code, and its magnitude under a scale factor, where both are in range.
    fn decoded(rate: Rate, code: u8, y: u16) -> Option<(Level, u16)> {
        if code < codes_of(rate) && y >= 544 && y <= 5120 {
            let level = levels(rate, code);
            Some((level, antilog(level.dqln, y)))
        } else {
            None
        }
    }

    fn level(neg: bool, dqln: i16, w: i16, f: u8) -> Level {
        Level { neg, dqln, w, f }
    }

    #[test]
    fn each_threshold_parts_two_codes(rt: HostRuntime) -> Result<(), Fail> {
        // A difference, a scale factor, and the codes at 16, 24, 32 and 40 kbit/s.
        let codes = [
            (0, 544, [0, 7, 15, 31]),
            (-1, 544, [3, 7, 15, 31]),
            (2, 544, [0, 7, 1, 2]),
            (-2, 544, [3, 7, 14, 29]),
            (3, 5120, [0, 7, 15, 31]),
            (300, 2000, [1, 3, 7, 14]),
            (-300, 2000, [2, 4, 8, 17]),
            (8191, 5120, [1, 3, 6, 9]),
            (-8192, 5120, [2, 4, 9, 22]),
            (32767, 5120, [1, 3, 7, 15]),
            (-32768, 544, [3, 7, 15, 31]),
        ];
        for (d, y, [at_16, at_24, at_32, at_40]) in codes {
            assert_eq!(rt; quantise(Rate::R16, d, y), at_16, "{d} under {y}");
            assert_eq!(rt; quantise(Rate::R24, d, y), at_24, "{d} under {y}");
            assert_eq!(rt; quantise(Rate::R32, d, y), at_32, "{d} under {y}");
            assert_eq!(rt; quantise(Rate::R40, d, y), at_40, "{d} under {y}");
        }

        // Under these scale factors a threshold lies between the differences 128 and 129.
        let thresholds = [
            (Rate::R16, 2544, 0, 1, 2),
            (Rate::R24, 3556, 7, 1, 6),
            (Rate::R24, 2716, 1, 2, 5),
            (Rate::R24, 2264, 2, 3, 4),
            (Rate::R32, 4084, 15, 1, 14),
            (Rate::R32, 3268, 1, 2, 13),
            (Rate::R32, 2876, 2, 3, 12),
            (Rate::R32, 2604, 3, 4, 11),
            (Rate::R32, 2388, 4, 5, 10),
            (Rate::R32, 2192, 5, 6, 9),
            (Rate::R32, 1988, 6, 7, 8),
            (Rate::R40, 4076, 31, 1, 30),
            (Rate::R40, 3652, 1, 2, 29),
            (Rate::R40, 3316, 2, 3, 28),
            (Rate::R40, 3032, 3, 4, 27),
            (Rate::R40, 2796, 4, 5, 26),
            (Rate::R40, 2588, 5, 6, 25),
            (Rate::R40, 2396, 6, 7, 24),
            (Rate::R40, 2232, 7, 8, 23),
            (Rate::R40, 2076, 8, 9, 22),
            (Rate::R40, 1936, 9, 10, 21),
            (Rate::R40, 1808, 10, 11, 20),
            (Rate::R40, 1688, 11, 12, 19),
            (Rate::R40, 1580, 12, 13, 18),
            (Rate::R40, 1476, 13, 14, 17),
            (Rate::R40, 1376, 14, 15, 16),
        ];
        for (rate, y, below, reached, mirrored) in thresholds {
            assert_eq!(rt; quantise(rate, 128, y), below, "{rate:?} under {y}");
            assert_eq!(rt; quantise(rate, 129, y), reached, "{rate:?} under {y}");
            assert_eq!(rt; quantise(rate, -129, y), mirrored, "{rate:?} under {y}");
        }
        Ok(())
    }

    #[test]
    fn each_level_has_its_magnitude(rt: HostRuntime) -> Result<(), Fail> {
        // A code with its level, a scale factor, and the magnitude under it.
        let rows = [
            (Rate::R16, 0, level(false, 116, -22, 0), 556, 3),
            (Rate::R16, 2, level(true, 365, 439, 7), 1000, 28),
            (Rate::R16, 3, level(true, 116, -22, 0), 5120, 1952),
            (Rate::R24, 1, level(false, 135, 30, 1), 547, 4),
            (Rate::R24, 4, level(true, 373, 582, 7), 3333, 728),
            (Rate::R24, 7, level(true, -2048, -4, 0), 5120, 0),
            (Rate::R32, 7, level(false, 425, 1122, 7), 5120, 10816),
            (Rate::R32, 9, level(true, 373, 355, 3), 544, 15),
            (Rate::R32, 14, level(true, 4, 18, 0), 544, 2),
            (Rate::R40, 15, level(false, 566, 696, 6), 5120, 23296),
            (Rate::R40, 30, level(true, -66, 14, 0), 544, 1),
            (Rate::R40, 31, level(true, -2048, 14, 0), 4000, 0),
        ];
        for (rate, code, level, y, magnitude) in rows {
            let found = decoded(rate, code, y).ok_or("code and scale factor in range")?;
            assert_eq!(rt;
                found,
                (level, magnitude),
                "{rate:?}, code {code} under {y}"
            );
        }
        Ok(())
    }
}
