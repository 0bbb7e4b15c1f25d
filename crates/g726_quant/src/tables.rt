//! The tables of the four rates (G.726, 4.2.4: RECONST, FUNCTW, FUNCTF), each by the place of a code's level.

ghost use Rattle.std.specs.Prelude.{◌≡◌, ◌<◌, ◌-◌, ◌^◌, ℕ, ℤ, pos, Some, slice_get, slice_index_or, length};
ghost use Rattle.g726_bits.specs.Rates.{bits_of};
ghost use Rattle.g726_bits.specs.Tables.{log_levels, scale_steps, speed_steps};

use g726_bits::Rate;

static LOG_LEVELS_16: [i16; 2] = [116, 365];

static LOG_LEVELS_24: [i16; 4] = [-2048, 135, 273, 373];

static LOG_LEVELS_32: [i16; 8] = [-2048, 4, 135, 213, 273, 323, 373, 425];

static LOG_LEVELS_40: [i16; 16] = [
    -2048, -66, 28, 104, 169, 224, 274, 318, 358, 395, 429, 459, 488, 514, 539, 566,
];

static SCALE_STEPS_16: [i16; 2] = [-22, 439];

static SCALE_STEPS_24: [i16; 4] = [-4, 30, 137, 582];

static SCALE_STEPS_32: [i16; 8] = [-12, 18, 41, 64, 112, 198, 355, 1122];

static SCALE_STEPS_40: [i16; 16] = [
    14, 14, 24, 39, 40, 41, 58, 100, 141, 179, 219, 280, 358, 440, 529, 696,
];

static SPEED_STEPS_16: [u8; 2] = [0, 7];

static SPEED_STEPS_24: [u8; 4] = [0, 1, 2, 7];

static SPEED_STEPS_32: [u8; 8] = [0, 0, 0, 1, 1, 1, 3, 7];

static SPEED_STEPS_40: [u8; 16] = [0, 0, 0, 0, 0, 1, 1, 1, 1, 1, 2, 3, 4, 5, 6, 6];

/// What a table has at a place.
#[inline]
fn at(table: &[i16], place: usize) -> i16
    requires { place < length table.now }
    ensures { slice_get table.now place ≡ Some result }
{
    table[place]
}

/// The same of a table of speeds.
#[inline]
fn speed_at(table: &[u8], place: usize) -> u8
    requires { place < length table.now }
    ensures { slice_get table.now place ≡ Some result }
{
    table[place]
}

/// The normalised logarithm of a level.
#[tactic(auto, using(crate::proofs::Lookups::lookups))]
#[inline]
pub(crate) fn log_level_at(rate: Rate, place: usize) -> i16
    requires { place < 2 ^ (bits_of rate - 1) }
    ensures { result ≡ slice_index_or (log_levels rate) place (pos 0) }
{
    match rate {
        Rate::R16 => at(&LOG_LEVELS_16, place),
        Rate::R24 => at(&LOG_LEVELS_24, place),
        Rate::R32 => at(&LOG_LEVELS_32, place),
        Rate::R40 => at(&LOG_LEVELS_40, place),
    }
}

/// What a level adds to the scale factor.
#[tactic(auto, using(crate::proofs::Lookups::lookups))]
#[inline]
pub(crate) fn scale_step_at(rate: Rate, place: usize) -> i16
    requires { place < 2 ^ (bits_of rate - 1) }
    ensures { result ≡ slice_index_or (scale_steps rate) place (pos 0) }
{
    match rate {
        Rate::R16 => at(&SCALE_STEPS_16, place),
        Rate::R24 => at(&SCALE_STEPS_24, place),
        Rate::R32 => at(&SCALE_STEPS_32, place),
        Rate::R40 => at(&SCALE_STEPS_40, place),
    }
}

/// How fast a level lets the adaptation be.
#[tactic(auto, using(crate::proofs::Lookups::lookups))]
#[inline]
pub(crate) fn speed_step_at(rate: Rate, place: usize) -> u8
    requires { place < 2 ^ (bits_of rate - 1) }
    ensures { result ≡ slice_index_or (speed_steps rate) place 0 }
{
    match rate {
        Rate::R16 => speed_at(&SPEED_STEPS_16, place),
        Rate::R24 => speed_at(&SPEED_STEPS_24, place),
        Rate::R32 => speed_at(&SPEED_STEPS_32, place),
        Rate::R40 => speed_at(&SPEED_STEPS_40, place),
    }
}
