//! What a listener hears.

ghost use Rattle.std.specs.Prelude.{◌≡◌, ◌<◌, ◌+ℤ◌, ◌==◌, ℕ, length, if◌then◌else◌};
ghost use Rattle.g726_bits.specs.Ranges.{IsSample};
ghost use Rattle.talk_mix.specs.Mix.{sample, limited, mix};

use crate::ticks::{Talkers, Tick};
use g726_bits::{FRAME_SAMPLES, Frame};

/// What a member hears of a tick: all voices but its own, added up sample by sample and limited once to -8192..=8191.
///
/// A member that isn't heard in the tick hears all of its voices.
pub fn mix(member: u32, tick: &Tick) -> Frame
    ensures mixed { result ≡ mix member tick.now }
{
    let silence = Frame::zero();
    match tick.talkers() {
        Talkers::Nobody => silence,
        Talkers::One(a) => blended(heard(a, member, &silence), &silence, &silence),
        Talkers::Two((a, b)) => blended(
            heard(a, member, &silence),
            heard(b, member, &silence),
            &silence,
        ),
        Talkers::Three((a, b, c)) => blended(
            heard(a, member, &silence),
            heard(b, member, &silence),
            heard(c, member, &silence),
        ),
    }
}

/// The frame of a voice, or silence where the listener itself speaks.
fn heard<'a>(voice: &'a (u32, Frame), listener: u32, silence: &'a Frame) -> &'a Frame
    ensures { result.now ≡ (if voice.now.0 == listener then silence.now else voice.now.1) }
{
    if voice.0 == listener {
        silence
    } else {
        &voice.1
    }
}

/// Three frames, added up and limited once.
fn blended(a: &Frame, b: &Frame, c: &Frame) -> Frame
    ensures long { length result ≡ 160 }
    ensures samples { (k : ℕ) → k < 160 →
        sample result k ≡ limited (sample a.now k +ℤ (sample b.now k +ℤ sample c.now k)) }
{
    let (a, b, c) = (a.samples(), b.samples(), c.samples());
    let mut samples = [0; FRAME_SAMPLES];
    for k in 0..FRAME_SAMPLES {
        samples[k] = limited_sum(a[k], b[k], c[k]);
    }
    Frame::from_samples(samples)
}

/// Three samples, added up and limited once.
#[inline]
fn limited_sum(a: i16, b: i16, c: i16) -> i16
    requires first { IsSample a }
    requires second { IsSample b }
    requires third { IsSample c }
    ensures value { result ≡ limited (a +ℤ (b +ℤ c)) }
    ensures sample { IsSample result }
{
    (a + (b + c)).clamp(-8192, 8191)
}
