//! Sums in words of 16 bits, and small choices.

ghost use Rattle.std.specs.Prelude.{◌≡◌, ◌+ℤ◌, ◌<◌, ◌^◌, ℕ, ℤ, pos, negsuc};
ghost use Rattle.g726_bits.specs.Ranges.{Within};
ghost use Rattle.g726_bits.specs.Numbers.{word, floor_div, signed};
ghost use Rattle.g726_bits.specs.Floats.{differ};
ghost use Rattle.g726_bits.specs.Step.{unless_cleared};

use g726_bits::w16;

/// The word of a sum of two.
#[tactic(auto, using(g726_bits::proofs::Floors::plain))]
#[inline(always)]
pub(crate) fn sum_of_two(p: i16, q: i16) -> i16
    ensures { result ≡ word (p +ℤ q) }
{
    w16(i64::from(p) + i64::from(q))
}

/// A sum of three.
#[tactic(auto, using(g726_bits::proofs::Floors::floors))]
#[inline(always)]
fn three(p: i16, q: i16, r: i16) -> i32
    ensures value { result ≡ p +ℤ q +ℤ r }
    ensures within { Within (negsuc 98303) (pos 98301) result }
{
    i32::from(p) + i32::from(q) + i32::from(r)
}

/// A sum with three more.
#[tactic(auto, using(g726_bits::proofs::Floors::floors))]
#[inline(always)]
fn three_more(sum: i32, p: i16, q: i16, r: i16) -> i32
    requires { Within (negsuc 98303) (pos 98301) sum }
    ensures { result ≡ sum +ℤ p +ℤ q +ℤ r }
{
    sum + i32::from(p) + i32::from(q) + i32::from(r)
}

/// The word of a sum of three.
#[tactic(auto, using(g726_bits::proofs::Floors::plain))]
#[inline(always)]
pub(crate) fn sum_of_three(p: i16, q: i16, r: i16) -> i16
    ensures { result ≡ word (p +ℤ q +ℤ r) }
{
    w16(i64::from(three(p, q, r)))
}

/// The word of a sum of six.
#[tactic(auto, using(g726_bits::proofs::Floors::plain))]
#[inline(always)]
pub(crate) fn sum_of_six(p: i16, q: i16, r: i16, s: i16, t: i16, u: i16) -> i16
    ensures { result ≡ word (p +ℤ q +ℤ r +ℤ s +ℤ t +ℤ u) }
{
    w16(i64::from(three_more(three(p, q, r), s, t, u)))
}

/// Half of a number, rounded down.
#[inline(always)]
pub(crate) fn half(v: i16) -> i16
    ensures { result ≡ floor_div v 2 }
{
    v >> 1
}

/// A magnitude below 2^15 with a minus sign where there is one.
#[tactic(auto, unfolding(g726_bits::specs::Numbers::signed))]
#[inline(always)]
pub(crate) fn with_sign(negative: bool, magnitude: u16) -> i16
    requires { magnitude < 2 ^ 15 }
    ensures { result ≡ signed negative magnitude }
{
    if negative {
        -(magnitude as i16)
    } else {
        magnitude as i16
    }
}

/// Whether exactly one of two holds.
#[tactic(auto, unfolding(g726_bits::specs::Floats::differ))]
#[inline(always)]
pub(crate) fn is_one_of(a: bool, b: bool) -> bool
    ensures { result ≡ differ a b }
{
    a != b
}

/// A coefficient, which a transition clears (G.726, TRIGB).
#[tactic(auto, unfolding(g726_bits::specs::Step::unless_cleared))]
#[inline(always)]
pub(crate) fn unless(cleared: bool, coefficient: i16) -> i16
    ensures { result ≡ unless_cleared cleared coefficient }
{
    if cleared { 0 } else { coefficient }
}
