//! The speed of the scale, and the two means that set it (G.726, 4.2.7: FILTA, FILTB, SUBTC, FILTC, TRIGA).

ghost use Rattle.std.specs.Prelude.{◌≡◌, ◌≤◌, ◌+ℤ◌, ◌-ℤ◌, ◌*ℤ◌, pos, not, int_lt, unsigned_abs, if◌then◌else◌};
ghost use Rattle.g726_bits.specs.Numbers.{floor_div};
ghost use Rattle.g726_bits.specs.Ranges.{Within};
ghost use Rattle.g726_bits.specs.Step.{short_mean, long_mean, is_rising, next_speed};

/// The mean over about 32 codes (G.726, FILTA: DMSP).
#[tactic(auto, using(g726_bits::proofs::Floors::floors), unfolding(g726_bits::specs::Step::short_mean))]
#[inline]
pub(crate) fn short_mean(dms: i32, f: u8) -> i32
    requires mean { Within (pos 0) (pos 3584) dms }
    requires step { f ≤ 7 }
    ensures { result ≡ short_mean dms f }
{
    dms + ((512 * i32::from(f) - dms) >> 5)
}

/// The mean over about 128 codes (G.726, FILTB: DMLP).
#[tactic(auto, using(g726_bits::proofs::Floors::floors), unfolding(g726_bits::specs::Step::long_mean))]
#[inline]
pub(crate) fn long_mean(dml: i32, f: u8) -> i32
    requires mean { Within (pos 0) (pos 14336) dml }
    requires step { f ≤ 7 }
    ensures { result ≡ long_mean dml f }
{
    dml + ((2048 * i32::from(f) - dml) >> 7)
}

/// How far the two means are apart, in 2048ths of a code's speed.
#[tactic(auto, using(g726_bits::proofs::Floors::floors))]
#[inline]
fn gap(short: i32, long: i32) -> i32
    requires short { Within (pos 0) (pos 3584) short }
    requires long { Within (pos 0) (pos 14336) long }
    ensures { result ≡ pos (unsigned_abs (pos 4 *ℤ short -ℤ long)) }
{
    (4 * short - long).abs()
}

/// An eighth of the long mean, rounded down.
#[tactic(auto, using(g726_bits::proofs::Floors::floors))]
#[inline]
fn eighth(long: i32) -> i32
    ensures { result ≡ floor_div long 8 }
{
    long >> 3
}

/// Whether the two means are less than an eighth of the long one apart.
#[tactic(auto, using(g726_bits::proofs::Floors::plain))]
#[inline]
fn are_close(short: i32, long: i32) -> bool
    requires short { Within (pos 0) (pos 3584) short }
    requires long { Within (pos 0) (pos 14336) long }
    ensures { result ≡ int_lt (pos (unsigned_abs (pos 4 *ℤ short -ℤ long))) (floor_div long 8) }
{
    gap(short, long) < eighth(long)
}

/// Whether the speed is to rise: the step is small, the means differ, or a tone was found (G.726, SUBTC: AX).
#[tactic(auto, using(g726_bits::proofs::Floors::floors), unfolding(g726_bits::specs::Step::is_rising))]
#[inline(always)]
pub(crate) fn is_rising(y: i32, short: i32, long: i32, tone: bool) -> bool
    requires short { Within (pos 0) (pos 3584) short }
    requires long { Within (pos 0) (pos 14336) long }
    ensures { result ≡ is_rising y short long tone }
{
    (y < 1536) | !are_close(short, long) | tone
}

/// The speed after a code (G.726, FILTC: APP; TRIGA: APR).
#[tactic(auto, using(g726_bits::proofs::Floors::floors), unfolding(g726_bits::specs::Step::next_speed))]
#[inline(always)]
pub(crate) fn next_speed(ap: i32, rising: bool, tr: bool) -> i32
    requires { Within (pos 0) (pos 512) ap }
    ensures { result ≡ next_speed ap rising tr }
{
    if tr { 256 } else { moved(ap, goal_of(rising)) }
}

/// What the speed moves towards.
#[inline]
fn goal_of(rising: bool) -> i32
    ensures value { result ≡ (if rising then pos 512 else pos 0) }
    ensures within { Within (pos 0) (pos 512) result }
{
    512 * i32::from(rising)
}

/// A sixteenth of the way towards a goal, rounded down.
#[tactic(auto, using(g726_bits::proofs::Floors::floors))]
#[inline]
fn moved(ap: i32, goal: i32) -> i32
    requires speed { Within (pos 0) (pos 512) ap }
    requires goal { Within (pos 0) (pos 512) goal }
    ensures { result ≡ ap +ℤ floor_div (goal -ℤ ap) 16 }
{
    ap + ((goal - ap) >> 4)
}
