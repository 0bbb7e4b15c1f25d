//! Samples in octets: 16 bits each, the low octet first.
ghost use Rattle.std.specs.Prelude.{◌≡◌, ◌≤◌, ◌<◌, ◌+◌, ◌*◌, ◌/◌, ◌%◌, ◌*ℤ◌, length, pos};
ghost use Rattle.g726_bits.specs.Numbers.{floor_div, floor_mod};
ghost use Rattle.g726_bits.specs.Ranges.{IsSample};
ghost use Rattle.g726_stream.specs.Samples.{fourth, samples_in, whole};
ghost use Rattle.g726_stream.specs.Streams.{filled};

use g726_bits::{Frame, w16};

/// The octets of a frame of samples.
pub const FRAME_OCTETS: usize = 320;

/// The number of two octets, the low one first.
fn number_of(low: u8, high: u8) -> u16
    ensures { result ≡ low + 256 * high }
{
    u16::from(low) + 256 * u16::from(high)
}

/// A fourth, rounded down.
#[tactic(auto, using(g726_bits::proofs::Floors::floors))]
fn quarter(v: i16) -> i16
    ensures value { result ≡ floor_div v 4 }
    ensures within { IsSample result }
{
    v >> 2
}

/// A fourth, rounded down, of the number of 16 bits that two octets spell.
#[tactic(auto, using(g726_bits::proofs::Floors::plain), unfolding(crate::specs::Samples::fourth))]
fn fourth_of(low: u8, high: u8) -> i16
    ensures value { result ≡ fourth low high }
    ensures within { IsSample result }
{
    quarter(w16(i64::from(number_of(low, high))))
}

/// The frame of at most 160 samples in octets, filled with zeros. A last odd octet is left out.
pub fn frame_of(octets: &[u8]) -> Frame
    requires { length octets.now ≤ 320 }
    ensures { result ≡ filled (samples_in octets.now) }
{
    let mut samples = [0i16; 160];
    for i in 0..octets.len() / 2 {
        samples[i] = fourth_of(octets[2 * i], octets[2 * i + 1]);
    }
    Frame::from_samples(samples)
}

/// Four times a sample.
#[tactic(auto, using(g726_bits::proofs::Floors::floors))]
fn four_times(sample: i16) -> i32
    requires { IsSample sample }
    ensures { result ≡ pos 4 *ℤ sample }
{
    4 * i32::from(sample)
}

/// A number in two's complement of 16 bits.
fn wrapped(v: i32) -> u16
    ensures { result ≡ floor_mod v 65536 }
{
    v.rem_euclid(65536) as u16
}

/// Four times a sample, in two's complement of 16 bits.
#[tactic(auto, using(g726_bits::proofs::Floors::plain), unfolding(crate::specs::Samples::whole))]
pub fn whole_of(sample: i16) -> u16
    requires { IsSample sample }
    ensures { result ≡ whole sample }
{
    wrapped(four_times(sample))
}

/// The low octet of a number of 16 bits.
pub fn low_half(number: u16) -> u8
    ensures { result ≡ number % 256 }
{
    (number % 256) as u8
}

/// The high octet of a number of 16 bits.
pub fn high_half(number: u16) -> u8
    ensures { result ≡ number / 256 }
{
    (number / 256) as u8
}
