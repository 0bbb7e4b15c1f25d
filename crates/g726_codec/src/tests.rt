//! Rows of the encoder and the decoder, and what they make of outside signals.

ghost use Rattle.std.specs.Prelude.{◌≡◌, ◌^◌};
ghost use Rattle.g726_bits.specs.Rates.{bits_of};

mod vectors;

use super::*;
use g726_bits::{Frame, Rate};
use pack3551::unpack;
use std::process::Abort;
use std::test::Fail;
use vectors::*;

/// A run from a state, with the first permit of a meter of its own.
fn run(rate: Rate, state: EncState, mix: Frame) -> Encoded {
    let mut meter = Meter::new();
    encode(meter.issue(), rate, state, mix)
}

/// The frame of 160 samples from a place on.
fn frame_at(samples: &[i16; 320], from: usize) -> Option<Frame> {
    let mut frame = [0i16; 160];
    for i in 0..160usize {
        frame[i] = samples.get(from.wrapping_add(i)).copied()?;
    }
    Frame::of(&frame)
}

/// The octets of two frames are those wanted.
fn check(
    rt: &impl Abort,
    name: &str,
    rate: Rate,
    samples: &[i16; 320],
    wanted: &[u8],
) -> Result<(), Fail> {
    let size = 20 * rate.bits() as usize;
    let first = run(
        rate,
        EncState::start(),
        frame_at(samples, 0).ok_or("frame")?,
    );
    assert_eq!(rt;
        Some(first.payload().as_slice()),
        wanted.get(..size),
        "{name} at {rate:?}"
    );
    let second = run(rate, first.after(), frame_at(samples, 160).ok_or("frame")?);
    assert_eq!(rt;
        Some(second.payload().as_slice()),
        wanted.get(size..),
        "{name} at {rate:?}, second frame"
    );
    Ok(())
}

/// A frame that begins with these samples and goes on in silence.
fn frame_of(first: &[i16]) -> Option<Frame> {
    let mut frame = [0i16; 160];
    for i in 0..160usize {
        frame[i] = first.get(i).copied().unwrap_or(0);
    }
    Frame::of(&frame)
}

#[test]
fn first_samples_have_the_known_codes(rt: HostRuntime) -> Result<(), Fail> {
    let rows: [(&[i16], &[u8]); 3] = [
        (&[8191], &[7]),
        (&[-8192], &[8]),
        (&[100, 10, -40, 0], &[0x37, 0xf8]),
    ];
    for (samples, octets) in rows {
        let mix = frame_of(samples).ok_or("frame")?;
        let done = run(Rate::R32, EncState::start(), mix);
        let payload = done.payload();
        let low = payload.as_slice().first().map(|octet| octet % 16);
        assert_eq!(rt;
            low,
            octets.first().map(|octet| octet % 16),
            "the first code of {samples:?}"
        );
        if octets.len() == 2 {
            assert_eq!(rt;
                payload.as_slice().get(..2),
                Some(octets),
                "the first octets of {samples:?}"
            );
        }
        assert!(rt;
            done.rate() == Rate::R32 && done.before() == EncState::start() && done.mix() == mix
        );
        assert!(rt; done.after() != done.before());
    }

    // Two listeners that hear silence above 16 kbit/s are equal after a frame, and stay so.
    for rate in [Rate::R24, Rate::R32, Rate::R40] {
        let first = run(rate, EncState::start(), Frame::zero());
        let second = run(rate, first.after(), Frame::zero());
        assert_eq!(rt; second.after(), first.after(), "silence at {rate:?}");
        let key = Triple {
            rate,
            state: first.after(),
            mix: Frame::zero(),
        };
        assert_eq!(rt;
            key,
            Triple {
                rate,
                state: second.after(),
                mix: second.mix()
            }
        );
    }

    let mut meter = Meter::new();
    assert_eq!(rt; meter.issued(), 0);
    let permit = meter.issue();
    assert_eq!(rt; permit.number(), 1);
    let done = encode(permit, Rate::R16, EncState::start(), Frame::zero());
    assert_eq!(rt; (done.number(), meter.issued()), (1, 1));
    Ok(())
}

#[test]
fn outside_signals_are_coded_as_elsewhere(rt: HostRuntime) -> Result<(), Fail> {
    let signals: [(&str, &[i16; 320], [&[u8]; 4]); 7] = [
        (
            "bursts",
            &BURSTS,
            [&BURSTS_16, &BURSTS_24, &BURSTS_32, &BURSTS_40],
        ),
        (
            "edges",
            &EDGES,
            [&EDGES_16, &EDGES_24, &EDGES_32, &EDGES_40],
        ),
        (
            "noise",
            &NOISE,
            [&NOISE_16, &NOISE_24, &NOISE_32, &NOISE_40],
        ),
        (
            "silence",
            &SILENCE,
            [&SILENCE_16, &SILENCE_24, &SILENCE_32, &SILENCE_40],
        ),
        ("sine", &SINE, [&SINE_16, &SINE_24, &SINE_32, &SINE_40]),
        (
            "speech",
            &SPEECH,
            [&SPEECH_16, &SPEECH_24, &SPEECH_32, &SPEECH_40],
        ),
        (
            "square",
            &SQUARE,
            [&SQUARE_16, &SQUARE_24, &SQUARE_32, &SQUARE_40],
        ),
    ];
    for (name, samples, [at_16, at_24, at_32, at_40]) in signals {
        check(&rt, name, Rate::R16, samples, at_16)?;
        check(&rt, name, Rate::R24, samples, at_24)?;
        check(&rt, name, Rate::R32, samples, at_32)?;
        check(&rt, name, Rate::R40, samples, at_40)?;
    }
    Ok(())
}

/// The number of codes at a rate.
fn codes_at(rate: Rate) -> u8
    ensures { result ≡ 2 ^ bits_of rate }
{
    match rate {
        Rate::R16 => 4,
        Rate::R24 => 8,
        Rate::R32 => 16,
        Rate::R40 => 32,
    }
}

/// A step of the decoder, or `None` where the code has more than the rate's bits.
fn followed(rate: Rate, state: EncState, code: u8) -> Option<Followed> {
    if code < codes_at(rate) {
        Some(follow(rate, state, code))
    } else {
        None
    }
}

/// The codes of the first frame's octets.
fn first_codes(rate: Rate, octets: &[u8]) -> Option<[u8; 160]> {
    let size = 20 * rate.bits() as usize;
    let frame = octets.get(..size)?;
    if frame.len() == size {
        Some(unpack(rate, frame))
    } else {
        None
    }
}

/// The first samples of a decoder are those wanted, and after a frame its state is the encoder's.
fn check_decoded(
    rt: &impl Abort,
    rate: Rate,
    samples: &[i16; 320],
    octets: &[u8],
    wanted: &[i16],
) -> Result<(), Fail> {
    let codes = first_codes(rate, octets).ok_or("octets")?;
    let mut state = EncState::start();
    for i in 0..160usize {
        let next = followed(rate, state, codes[i]).ok_or("code")?;
        if let Some(sample) = wanted.get(i) {
            assert_eq!(rt; next.sample, *sample, "sample {i} at {rate:?}");
        }
        state = next.after;
    }
    let mix = frame_at(samples, 0).ok_or("frame")?;
    assert_eq!(rt;
        state,
        run(rate, EncState::start(), mix).after(),
        "the state at {rate:?}"
    );
    Ok(())
}

#[test]
fn codes_are_decoded_as_elsewhere(rt: HostRuntime) -> Result<(), Fail> {
    let rows = [
        (Rate::R32, 7, 22),
        (Rate::R32, 8, -22),
        (Rate::R32, 15, 0),
        (Rate::R40, 15, 47),
        (Rate::R24, 3, 15),
        (Rate::R16, 1, 15),
    ];
    for (rate, code, sample) in rows {
        let next = followed(rate, EncState::start(), code).ok_or("code")?;
        assert_eq!(rt; next.sample, sample, "the code {code} at {rate:?}");
    }

    // Both signals are loud enough for samples that are limited.
    check_decoded(&rt, Rate::R16, &EDGES, &EDGES_16, &EDGES_16_DECODED)?;
    check_decoded(&rt, Rate::R24, &EDGES, &EDGES_24, &EDGES_24_DECODED)?;
    check_decoded(&rt, Rate::R32, &EDGES, &EDGES_32, &EDGES_32_DECODED)?;
    check_decoded(&rt, Rate::R40, &EDGES, &EDGES_40, &EDGES_40_DECODED)?;
    check_decoded(&rt, Rate::R16, &SQUARE, &SQUARE_16, &SQUARE_16_DECODED)?;
    check_decoded(&rt, Rate::R24, &SQUARE, &SQUARE_24, &SQUARE_24_DECODED)?;
    check_decoded(&rt, Rate::R32, &SQUARE, &SQUARE_32, &SQUARE_32_DECODED)?;
    check_decoded(&rt, Rate::R40, &SQUARE, &SQUARE_40, &SQUARE_40_DECODED)?;
    Ok(())
}
