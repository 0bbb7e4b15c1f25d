// The quantiser's scale factor of G.726, and the speed at which it adapts.
//
// Rests on g726_bits, whose definitions it meets.
// Promises: the step size, the transition test and the next scale are the profile's, value for value, and no part of the
// scale leaves its range.
#![tactic(auto)]

ghost use Rattle.std.specs.Prelude.{◌≡◌, ◌≤◌, ◌*◌, ◌/◌, ◌^◌, ◌+ℤ◌, ◌-ℤ◌, ◌*ℤ◌, pos, negsuc};
ghost use Rattle.g726_bits.specs.Ranges.{Within, IsStepSize, IsInRange};
ghost use Rattle.g726_bits.specs.Numbers.{floor_div, limited};
ghost use Rattle.g726_bits.specs.State.{scale_start};
ghost use Rattle.g726_bits.specs.Step.{step_size, limited_speed, transition, transition_threshold, fast_factor, slow_factor, scale_after};
ghost use Rattle.g726_scale.specs.Pairs.{IsTablePair};
ghost use Rattle.g726_scale.specs.Mix.{mixed};

use std::marker::Model;

mod speed;

use speed::{is_rising, long_mean, next_speed, short_mean};

/// The scale factor, fast and slow, its speed, and the two means that set the speed (G.726, 4.2.5 and 4.2.7).
///
/// Contracts see it as one record in the Recommendation's names: yu in 544..=5120, yl in 34816..=327680, ap in 0..=512,
/// dms in 0..=3584 and dml in 0..=14336.
#[derive(Clone, Copy, PartialEq, Eq, Hash, Debug)]
pub struct Scale {
    yu: i32,
    yl: i32,
    ap: i32,
    dms: i32,
    dml: i32,
}

impl Model for Scale {
    ghost use Rattle.g726_bits.specs.State.{ScaleState};
    ghost use Rattle.g726_bits.specs.Ranges.{IsInRange};

    ghost Value = { ScaleState };

    ghost use Rattle.g726_scale.specs.Shown.{shown, grouped};

    ghost view = { shown };

    ghost invariant = { λ s. IsInRange (shown s) };

    ghost inverse = { grouped };
}

impl Scale {
    /// The scale that a reset sets.
    #[tactic(auto, unfolding(g726_bits::specs::State::scale_start))]
    pub fn start() -> Scale
        ensures { result ≡ scale_start }
    {
        Scale {
            yu: 544,
            yl: 34816,
            ap: 0,
            dms: 0,
            dml: 0,
        }
    }

    /// The step size, 544 to 5120: part of the fast and part of the slow factor, by the speed (G.726, LIMA and MIX: Y).
    #[tactic(auto, using(g726_bits::proofs::Floors::plain))]
    #[inline(always)]
    pub fn step_size(&self) -> u16
        ensures value { pos result ≡ step_size self.now }
        ensures at_least { 544 ≤ result }
        ensures at_most { result ≤ 5120 }
    {
        self.step() as u16
    }

    /// The same, as the codec's sums take it.
    #[tactic(auto, using(g726_bits::proofs::Floors::plain), unfolding(crate::specs::Mix::mixed, g726_bits::specs::Step::step_size))]
    #[inline(always)]
    fn step(&self) -> i32
        ensures value { result ≡ step_size self.now }
        ensures range { IsStepSize result }
    {
        blended(self.yu, base_of(self.yl), parts_of_speed(self.ap))
    }

    /// Whether a large difference meets a tone's mark: a transition (G.726, TRANS: TR).
    ///
    /// `td` is the mark, `g` the magnitude of the quantised difference.
    #[tactic(auto, using(g726_bits::proofs::Floors::plain), unfolding(g726_bits::specs::Step::transition))]
    #[inline(always)]
    pub fn transition(&self, td: bool, g: u16) -> bool
        ensures { result ≡ transition self.now td g }
    {
        td && threshold(self.yl) < i32::from(g)
    }

    /// The scale after a code (G.726, FUNCTW to FILTE, FUNCTF to TRIGA).
    ///
    /// `w` and `f` are what the tables have for the code, `y` is this scale's step size, `tone` and `tr` say whether the
    /// step found a tone and a transition.
    #[tactic(auto, using(g726_bits::proofs::Floors::plain))]
    #[inline(always)]
    pub fn adapt(&self, w: i16, f: u8, y: u16, tone: bool, tr: bool) -> Scale
        requires pair { IsTablePair w f }
        requires step { pos y ≡ step_size self.now }
        ensures { result ≡ scale_after self.now w f tone tr }
    {
        let short = short_mean(self.dms, f);
        let long = long_mean(self.dml, f);
        let y = i32::from(y);
        let fast = fast_factor(i32::from(w), y);
        let rising = is_rising(y, short, long, tone);
        Scale {
            yu: fast,
            yl: slow_factor(self.yl, fast),
            ap: next_speed(self.ap, rising, tr),
            dms: short,
            dml: long,
        }
    }
}

/// The speed, limited, in 64ths (G.726, LIMA: AL).
#[tactic(auto, using(g726_bits::proofs::Floors::floors), unfolding(g726_bits::specs::Step::limited_speed))]
#[inline]
fn parts_of_speed(ap: i32) -> u32
    requires { Within (pos 0) (pos 512) ap }
    ensures value { pos result ≡ limited_speed ap }
    ensures few { result ≤ 64 }
{
    if ap >= 256 { 64 } else { (ap >> 2) as u32 }
}

/// So many 64ths of a gap, rounded down.
#[inline]
fn share_of(gap: u32, parts: u32) -> u32
    requires gap { gap ≤ 4576 }
    requires parts { parts ≤ 64 }
    ensures value { result ≡ gap * parts / 64 }
    ensures no_more { result ≤ gap }
{
    gap * parts / 64
}

/// The base that the speed moves from: a 64th of the slow factor, rounded down.
#[tactic(auto, using(g726_bits::proofs::Floors::floors))]
#[inline]
fn base_of(yl: i32) -> i32
    requires { Within (pos 34816) (pos 327680) yl }
    ensures value { result ≡ floor_div yl 64 }
    ensures range { IsStepSize result }
{
    yl >> 6
}

/// The base moved toward the fast factor by so many 64ths of the gap (G.726, MIX: Y).
#[tactic(auto, using(g726_bits::proofs::Floors::floors), unfolding(crate::specs::Mix::mixed))]
#[inline]
fn blended(yu: i32, base: i32, parts: u32) -> i32
    requires fast { IsStepSize yu }
    requires base { IsStepSize base }
    requires parts { parts ≤ 64 }
    ensures value { result ≡ mixed yu base (pos parts) }
    ensures range { IsStepSize result }
{
    let gap = yu - base;
    let part = share_of(gap.unsigned_abs(), parts) as i32;
    if gap < 0 { base - part } else { base + part }
}

/// Two to the power of `whole`.
#[inline]
fn power(whole: u32) -> u32
    requires { whole ≤ 9 }
    ensures value { result ≡ 2 ^ whole }
    ensures few { result ≤ 512 }
{
    match whole {
        0 => 1,
        1 => 2,
        2 => 4,
        3 => 8,
        4 => 16,
        5 => 32,
        6 => 64,
        7 => 128,
        8 => 256,
        _ => 512,
    }
}

/// The difference past which a tone's mark means a transition (G.726, TRANS: DQTHR).
#[tactic(auto, using(g726_bits::proofs::Floors::floors), unfolding(g726_bits::specs::Step::transition_threshold))]
#[inline]
fn threshold(yl: i32) -> i32
    requires { Within (pos 34816) (pos 327680) yl }
    ensures { result ≡ transition_threshold yl }
{
    let slow = yl as u32;
    let whole = slow / 32768;
    let least = if whole > 9 {
        31744
    } else {
        (32 + slow / 1024 % 32) * power(whole)
    };
    ((least + least / 2) / 2) as i32
}

/// The fast factor moved toward a table's entry, not limited yet (G.726, FILTD: YUT).
#[tactic(auto, using(g726_bits::proofs::Floors::floors))]
#[inline]
fn moved(w: i32, y: i32) -> i32
    requires table { Within (negsuc 32767) (pos 32767) w }
    requires step { IsStepSize y }
    ensures { result ≡ y +ℤ floor_div (pos 32 *ℤ w -ℤ y) 32 }
{
    y + ((32 * w - y) >> 5)
}

/// A step size, or the bound that it is past (G.726, LIMB).
#[tactic(auto, unfolding(g726_bits::specs::Numbers::limited))]
#[inline]
fn within_bounds(step: i32) -> i32
    ensures value { result ≡ limited (pos 544) (pos 5120) step }
    ensures range { IsStepSize result }
{
    if step < 544 {
        544
    } else if 5120 < step {
        5120
    } else {
        step
    }
}

/// The fast factor after a code (G.726, FILTD: YUT; LIMB: YUP).
#[tactic(auto, using(g726_bits::proofs::Floors::plain), unfolding(g726_bits::specs::Step::fast_factor))]
#[inline]
fn fast_factor(w: i32, y: i32) -> i32
    requires table { Within (negsuc 32767) (pos 32767) w }
    requires step { IsStepSize y }
    ensures value { result ≡ fast_factor w y }
    ensures range { IsStepSize result }
{
    within_bounds(moved(w, y))
}

/// The slow factor after a fast one (G.726, FILTE: YLP).
#[tactic(auto, using(g726_bits::proofs::Floors::floors), unfolding(g726_bits::specs::Step::slow_factor))]
#[inline]
fn slow_factor(yl: i32, fast: i32) -> i32
    requires slow { Within (pos 34816) (pos 327680) yl }
    requires fast { IsStepSize fast }
    ensures { result ≡ slow_factor yl fast }
{
    yl + fast + (-yl >> 6)
}

#[cfg(test)]
mod tests {
    use super::*;
    use std::test::Fail;

    /// The scale after the lowest, the sixth or the highest level of 32 kbit/s.
    fn after(scale: &Scale, level: u32, tone: bool, tr: bool) -> Scale {
        let y = scale.step_size();
        match level {
            0 => scale.adapt(-12, 0, y, tone, tr),
            5 => scale.adapt(198, 1, y, tone, tr),
            _ => scale.adapt(1122, 7, y, tone, tr),
        }
    }

    #[test]
    fn step_and_threshold_follow_the_levels(rt: HostRuntime) -> Result<(), Fail> {
        let start = Scale::start();
        assert_eq!(rt; start.step_size(), 544);
        assert!(rt; !start.transition(true, 51));
        assert!(rt; start.transition(true, 52));
        let steps = [
            (1u32, 7u32, false, false, 697u16, 52u16),
            (5, 7, false, false, 1931, 63),
            (34, 7, false, false, 5120, 696),
            (3, 0, false, false, 4619, 792),
            (1, 0, false, true, 4462, 816),
            (20, 5, false, false, 5120, 2016),
            (60, 5, false, false, 4205, 6912),
            (120, 5, false, false, 5120, 20352),
            (1, 5, true, false, 5120, 20352),
            (3, 0, false, false, 4619, 20352),
            (200, 0, false, false, 544, 73),
        ];
        let mut s = start;
        for (times, level, tone, tr, step, threshold) in steps {
            for _ in 0..times {
                s = after(&s, level, tone, tr);
            }
            assert_eq!(rt; s.step_size(), step, "after {times} of level {level}");
            assert!(rt; !s.transition(true, threshold), "at {threshold}");
            assert!(rt;
                s.transition(true, threshold.saturating_add(1)),
                "past {threshold}"
            );
            assert!(rt; !s.transition(false, 32767));
        }
        assert!(rt; s != start);
        Ok(())
    }
}
