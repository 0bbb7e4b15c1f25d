//! The adaptation of the two poles (G.726, 4.2.6: UPA1, UPA2, LIMC, LIMD, TONE).

ghost use Rattle.std.specs.Prelude.{◌≡◌, ◌≤◌, ◌+ℤ◌, ◌-ℤ◌, ◌≤ℤ◌, ℕ, ℤ, pos, negsuc, neg_ℤ, if◌then◌else◌, ◌==◌, unsigned_abs, min, int_lt};
ghost use Rattle.g726_bits.specs.Numbers.{floor_div, limited};
ghost use Rattle.g726_bits.specs.Ranges.{Within};
ghost use Rattle.g726_bits.specs.Floats.{differ};
ghost use Rattle.g726_bits.specs.Step.{second_pole_step, second_pole, first_pole_step, first_pole, is_tone};

use crate::sums::is_one_of;
use g726_bits::signed_by;

/// A number, or the bound that it is past.
#[tactic(auto, unfolding(g726_bits::specs::Numbers::limited))]
#[inline(always)]
fn limit(low: i32, high: i32, v: i32) -> i32
    requires { low ≤ℤ high }
    ensures value { result ≡ limited low high v }
    ensures within { Within low high result }
{
    if v < low {
        low
    } else if high < v {
        high
    } else {
        v
    }
}

/// A number's magnitude, of at most 13 bits.
#[inline(always)]
fn magnitude_of(v: i16) -> u16
    ensures value { result ≡ min (unsigned_abs v) 8191 }
    ensures within { result ≤ 8191 }
{
    v.unsigned_abs().min(8191)
}

/// A number, or its negation where `kept` is false, within 13 bits and a sign.
///
/// The sign is taken by a mask: whether it is kept follows the signal, and would be a branch that is often mispredicted.
#[tactic(auto, using(crate::proofs::Parts::turned_is))]
#[inline(always)]
fn turned(kept: bool, v: i16) -> i16
    ensures value { result ≡ limited (negsuc 8190) (pos 8191) (if kept then v else neg_ℤ v) }
    ensures within { Within (negsuc 8190) (pos 8191) result }
{
    signed_by(v < 0, !kept, magnitude_of(v))
}

/// A 32nd of a number within 13 bits and a sign, rounded down (G.726, UPA2: FA).
#[tactic(auto, using(g726_bits::proofs::Floors::floors))]
#[inline(always)]
fn narrowed(v: i16) -> i32
    requires { Within (negsuc 8190) (pos 8191) v }
    ensures value { result ≡ floor_div v 32 }
    ensures within { Within (negsuc 255) (pos 255) result }
{
    i32::from(v) >> 5
}

/// A number with 128 added or, where `less`, taken away.
#[tactic(auto, using(g726_bits::proofs::Floors::floors))]
#[inline(always)]
fn moved(less: bool, v: i32) -> i32
    requires { Within (negsuc 255) (pos 255) v }
    ensures value { result ≡ (if less then v -ℤ pos 128 else v +ℤ pos 128) }
    ensures within { Within (negsuc 383) (pos 383) result }
{
    if less { v - 128 } else { v + 128 }
}

/// The step of the second pole (G.726, UPA2: UGA2).
#[tactic(auto, using(g726_bits::proofs::Floors::plain), unfolding(g726_bits::specs::Step::second_pole_step))]
#[inline(always)]
fn second_step(a1: i16, pk1: bool, pk2: bool, dqsez: i16) -> i32
    ensures value { result ≡ second_pole_step a1 pk1 pk2 dqsez }
    ensures within { Within (negsuc 383) (pos 383) result }
{
    if dqsez == 0 {
        0
    } else {
        let pk0 = dqsez < 0;
        moved(
            is_one_of(pk0, pk2),
            narrowed(turned(is_one_of(pk0, pk1), a1)),
        )
    }
}

/// The length of the first pole's step: none where the signal is 0.
#[inline(always)]
fn length_of_step(dqsez: i16) -> u16
    ensures value { result ≡ (if unsigned_abs dqsez == 0 then 0 else 192) }
    ensures within { result ≤ 192 }
{
    if dqsez == 0 { 0 } else { 192 }
}

/// The step of the first pole (G.726, UPA1: UGA1), whose sign is taken by a mask.
#[tactic(auto, using(g726_bits::proofs::Floors::plain, crate::proofs::Parts::first_step_is))]
#[inline(always)]
fn first_step(pk1: bool, dqsez: i16) -> i32
    ensures value { result ≡ first_pole_step pk1 dqsez }
    ensures within { Within (negsuc 191) (pos 192) result }
{
    i32::from(signed_by(dqsez < 0, pk1, length_of_step(dqsez)))
}

/// The second pole less a 128th of it, and a step (G.726, UPA2: A2T).
#[tactic(auto, using(g726_bits::proofs::Floors::floors))]
#[inline(always)]
fn leaked_second(a2: i16, step: i32) -> i32
    requires { Within (negsuc 383) (pos 383) step }
    ensures { result ≡ a2 -ℤ floor_div a2 128 +ℤ step }
{
    let a2 = i32::from(a2);
    a2 - (a2 >> 7) + step
}

/// The first pole less a 256th of it, and a step (G.726, UPA1: A1T).
#[tactic(auto, using(g726_bits::proofs::Floors::floors))]
#[inline(always)]
fn leaked_first(a1: i16, step: i32) -> i32
    requires { Within (negsuc 191) (pos 192) step }
    ensures { result ≡ a1 -ℤ floor_div a1 256 +ℤ step }
{
    let a1 = i32::from(a1);
    a1 - (a1 >> 8) + step
}

/// The second pole after a step (G.726, UPA2 and LIMC: A2P).
#[tactic(auto, using(g726_bits::proofs::Floors::plain), unfolding(g726_bits::specs::Step::second_pole))]
#[inline(always)]
pub(crate) fn next_second(a1: i16, a2: i16, pk1: bool, pk2: bool, dqsez: i16) -> i16
    ensures value { result ≡ second_pole a1 a2 pk1 pk2 dqsez }
    ensures within { Within (negsuc 12287) (pos 12288) result }
{
    limit(
        -12288,
        12288,
        leaked_second(a2, second_step(a1, pk1, pk2, dqsez)),
    ) as i16
}

/// What the second pole leaves to the first one (G.726, LIMD: A1UL).
#[tactic(auto, using(g726_bits::proofs::Floors::floors))]
#[inline(always)]
fn room(a2p: i16) -> i32
    requires { Within (negsuc 12287) (pos 12288) a2p }
    ensures value { result ≡ pos 15360 -ℤ a2p }
    ensures within { Within (pos 3072) (pos 27648) result }
{
    15360 - i32::from(a2p)
}

/// A number within a bound and its negation.
#[tactic(auto, using(g726_bits::proofs::Floors::floors))]
#[inline(always)]
fn limit_both(bound: i32, v: i32) -> i16
    requires { Within (pos 3072) (pos 27648) bound }
    ensures value { result ≡ limited (neg_ℤ bound) bound v }
    ensures within { Within (neg_ℤ bound) bound result }
{
    limit(-bound, bound, v) as i16
}

/// The first pole after a step, within what the second one leaves (G.726, UPA1 and LIMD: A1P).
#[tactic(auto, using(g726_bits::proofs::Floors::plain), unfolding(g726_bits::specs::Step::first_pole))]
#[inline(always)]
pub(crate) fn next_first(a1: i16, pk1: bool, a2p: i16, dqsez: i16) -> i16
    requires { Within (negsuc 12287) (pos 12288) a2p }
    ensures value { result ≡ first_pole a1 pk1 a2p dqsez }
    ensures within { Within (neg_ℤ (pos 15360 -ℤ a2p)) (pos 15360 -ℤ a2p) result }
{
    limit_both(room(a2p), leaked_first(a1, first_step(pk1, dqsez)))
}

/// Whether the second pole stands as for a tone (G.726, TONE: TDP).
#[tactic(auto, unfolding(g726_bits::specs::Step::is_tone))]
#[inline(always)]
pub(crate) fn stands_for_tone(a2p: i16) -> bool
    ensures { result ≡ is_tone a2p }
{
    a2p < -11776
}
