//! Codes as places of a line, and what a decoder makes of them.

ghost use Rattle.std.specs.Prelude.{◌≡◌, ◌≤◌, ◌<◌, ◌*◌, ◌/◌, ◌^◌, true, length, map, take};
ghost use Rattle.std.specs.List.{All};
ghost use Rattle.g726_bits.specs.Rates.{bits_of};
ghost use Rattle.g726_bits.specs.Ranges.{IsSample, IsSound};
ghost use Rattle.talk_726.specs.Decoding.{code_at, place_of, places_of, state_at, state_past, sample_at, samples_for};
ghost use Rattle.talk_726.specs.Kept.{IsPlace};

use g726_bits::{FRAME_SAMPLES, Rate};
use g726_codec::{EncState, Followed, follow, follow_frame};
use pack3551::unpack_all;

/// The most codes of a payload: 200 ms.
pub(crate) const MOST_CODES: usize = 1600;

/// Puts down each code of a payload and one, since a line says 0 where it holds nothing.
pub(crate) fn read_places(rate: Rate, octets: &[u8], places: &mut [i16])
    requires count { bits_of rate * length places.old ≡ 8 * length octets.now }
    requires most { length places.old ≤ 1600 }
    ensures places { places.new ≡ places_of rate octets.now }
    ensures range { All (IsPlace rate) places.new }
{
    let mut room = [0; MOST_CODES];
    let codes = &mut room[..places.len()];
    unpack_all(rate, octets, codes);
    for i in 0..codes.len() {
        places[i] = i16::from(codes[i] + 1);
    }
}

/// Decodes a frame of places, from one to the next, and gives the decoder's state past them.
pub(crate) fn say(
    rate: Rate,
    state: EncState,
    places: &[i16; FRAME_SAMPLES],
    samples: &mut [i16; FRAME_SAMPLES],
) -> EncState
    requires { All (IsPlace rate) places.now }
    ensures state { result ≡ state_past rate state places.now }
    ensures samples { samples.new ≡ samples_for rate state places.now }
    ensures within { All IsSample samples.new }
{
    let mut codes = [0; FRAME_SAMPLES];
    if are_codes(rate, places, &mut codes) {
        follow_frame(rate, state, &codes, samples)
    } else {
        say_each(rate, state, places, samples)
    }
}

/// Whether each place of a frame has a code, and then those codes.
fn are_codes(rate: Rate, places: &[i16; FRAME_SAMPLES], codes: &mut [u8; FRAME_SAMPLES]) -> bool
    requires { All (IsPlace rate) places.now }
    ensures codes { result ≡ true → places.now ≡ map place_of codes.new }
    ensures small { result ≡ true → All (λ c. c < 2 ^ bits_of rate) codes.new }
{
    for i in 0..FRAME_SAMPLES {
        let number = places[i].unsigned_abs();
        if number == 0 {
            return false;
        }
        codes[i] = (number - 1) as u8;
    }
    true
}

/// Decodes a frame of places one by one, as they may have gaps.
fn say_each(
    rate: Rate,
    state: EncState,
    places: &[i16; FRAME_SAMPLES],
    samples: &mut [i16; FRAME_SAMPLES],
) -> EncState
    requires { All (IsPlace rate) places.now }
    ensures state { result ≡ state_past rate state places.now }
    ensures samples { samples.new ≡ samples_for rate state places.now }
    ensures within { All IsSample samples.new }
{
    let mut state = state;
    for i in 0..FRAME_SAMPLES {
        let next = follow_place(rate, state, places[i]);
        samples[i] = next.sample;
        state = next.after;
    }
    state
}

/// Decodes a place.
fn follow_place(rate: Rate, state: EncState, place: i16) -> Followed
    requires { IsPlace rate place }
    ensures after { result.after ≡ state_at rate state (code_at place) }
    ensures sample { result.sample ≡ sample_at rate state (code_at place) }
    ensures within { IsSample result.sample }
{
    let number = place.unsigned_abs();
    if number == 0 {
        return Followed {
            after: state,
            sample: 0,
        };
    }
    follow(rate, state, (number - 1) as u8)
}
