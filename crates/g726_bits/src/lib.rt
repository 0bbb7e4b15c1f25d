// The words of the G.726 codec: its rates, its frames of samples, its short floats, and its whole profile as definitions.
//
// Rests on nothing but std.
// Promises: a `Frame` holds 160 samples of the 14-bit scale; a `Float11` holds a 4-bit exponent and a 6-bit mantissa.
#![tactic(auto)]

ghost use Rattle.std.specs.Prelude.{◌≡◌, ℕ, ℤ, List, pos, negsuc, length, replicate};
ghost use Rattle.std.specs.List.{All};
ghost use Rattle.std.specs.Option.{SomeIff};
ghost use Rattle.g726_bits.specs.Ranges.{IsSample};

use std::marker::Model;

mod laws;
mod words;

pub use laws::{ranges_hold, silence_settles, square_wave_is_coded, tone_is_coded};
pub use words::{bit_len, floor_shift, fmult, signed_by, w16};

/// The number of samples in a frame: 20 ms at 8,000 samples a second.
pub const FRAME_SAMPLES: usize = 160;

/// A rate of ITU-T G.726, in kbit/s.
#[derive(Clone, Copy, PartialEq, Eq, Hash, Debug)]
pub enum Rate {
    R16,
    R24,
    R32,
    R40,
}

impl Rate {
    ghost use Rattle.g726_bits.specs.Rates.{bits_of};

    /// The number of bits in a code: 2, 3, 4 or 5 (G.726, section 1).
    pub fn bits(self) -> u32
        ensures { result ≡ bits_of self }
    {
        match self {
            Rate::R16 => 2,
            Rate::R24 => 3,
            Rate::R32 => 4,
            Rate::R40 => 5,
        }
    }
}

/// 160 samples of uniform speech, 20 ms at 8 kHz, each in -8192..=8191.
///
/// Contracts see a frame as the list of its samples.
#[derive(Clone, Copy, PartialEq, Eq, Hash, Debug)]
pub struct Frame {
    samples: [i16; 160],
}

impl Model for Frame {
    ghost Value = { List ℤ };

    ghost view = { λ f. f.samples };

    ghost invariant = { λ f. All IsSample f.samples };

    ghost inverse = { λ xs. record { samples = xs } };
}

impl Frame {
    /// The frame of these samples, or `None` exactly where one of them is outside -8192..=8191.
    pub fn of(samples: &[i16; 160]) -> Option<Frame>
        ensures { SomeIff result (All IsSample samples.now) samples.now }
    {
        if samples.iter().all(|x| *x >= -8192 && *x <= 8191) {
            Some(Frame { samples: *samples })
        } else {
            None
        }
    }

    /// The frame of samples of which each is known to be in -8192..=8191.
    pub fn from_samples(samples: [i16; 160]) -> Frame
        requires { All IsSample samples }
        ensures { result ≡ samples }
    {
        Frame { samples }
    }

    /// The silent frame.
    pub fn zero() -> Frame
        ensures { result ≡ replicate 160 (pos 0) }
    {
        Frame { samples: [0; 160] }
    }

    /// The 160 samples, the earliest first.
    pub fn samples(&self) -> &[i16; 160]
        ensures value { result.now ≡ self.now }
        ensures long { length result.now ≡ 160 }
        ensures within { All IsSample self.now }
    {
        &self.samples
    }
}

/// The short float of G.726 (section 4.2.4): a sign, an exponent of 4 bits and a mantissa of 6 bits.
///
/// `exp` is at most 15 and `mant` at most 63.
#[derive(Clone, Copy, PartialEq, Eq, Hash, Debug)]
pub struct Float11 {
    pub neg: bool,
    pub exp: u8,
    pub mant: u8,
}

impl Model for Float11 {
    ghost use Rattle.std.specs.Prelude.{◌≤◌};
    ghost use Rattle.g726_bits.specs.Floats.{ShortFloat};

    ghost Value = { ShortFloat };

    ghost view = { λ f. record { neg = f.neg; exp = f.exp; mant = f.mant } };

    ghost invariant = { λ f. (f.exp ≤ 15) × (f.mant ≤ 63) };

    ghost inverse = { λ f. record { neg = f.neg; exp = f.exp; mant = f.mant } };
}

#[cfg(test)]
mod tests {
    use super::*;
    use std::test::Fail;

    /// A float with a sign, an exponent and a mantissa.
    fn float(neg: bool, exp: u8, mant: u8) -> Option<Float11> {
        if exp <= 15 && mant <= 63 {
            Some(Float11 { neg, exp, mant })
        } else {
            None
        }
    }

    #[test]
    fn products_words_and_frames_are_as_worked_by_hand(rt: HostRuntime) -> Result<(), Fail> {
        let products = [
            (384, false, 5, 52, 1),
            (-384, false, 5, 52, -1),
            (0, false, 15, 63, 8),
            (3, true, 15, 63, -8),
            (-32768, false, 15, 63, -8),
            (0, false, 0, 32, 0),
            (32767, true, 15, 63, -30208),
            (16384, false, 15, 32, 1536),
        ];
        for (c, neg, exp, mant, product) in products {
            let f = float(neg, exp, mant).ok_or("float")?;
            assert_eq!(rt; fmult(c, f), product, "{c} times {f:?}");
        }
        for (v, word) in [(32767, 32767), (32768, -32768), (-32769, 32767), (65536, 0)] {
            assert_eq!(rt; w16(v), word, "word of {v}");
        }
        assert_eq!(rt; floor_shift(-7, 1), -4);
        assert_eq!(rt; bit_len(0), 0);
        assert_eq!(rt; bit_len(8191), 13);

        let mut samples = Frame::zero();
        assert_eq!(rt; Frame::of(samples.samples()), Some(samples));
        let mut loud = [8191i16; 160];
        samples = Frame::of(&loud).ok_or("the greatest sample")?;
        assert_eq!(rt; samples.samples(), &loud);
        loud[159] = 8192;
        assert_eq!(rt; Frame::of(&loud), None, "a sample past the greatest");
        loud[159] = -8193;
        assert_eq!(rt; Frame::of(&loud), None, "a sample below the least");
        assert_eq!(rt;
            [
                Rate::R16.bits(),
                Rate::R24.bits(),
                Rate::R32.bits(),
                Rate::R40.bits()
            ],
            [2, 3, 4, 5]
        );

        ranges_hold();
        silence_settles();
        square_wave_is_coded();
        tone_is_coded();
        Ok(())
    }
}
