//! What is said in each tick.

use g726_bits::{FRAME_SAMPLES, Frame};
use talk_mix::{Tick, choose};

/// The member that talks, who doesn't listen.
const TALKER: u32 = 4_000_000_000;

/// The frame of this tick: a loud saw tooth that runs on from tick to tick, about 265 Hz.
fn buzz(tick: u64) -> Frame {
    let mut samples = [0; FRAME_SAMPLES];
    let first = tick % 8191 * 160;
    for k in 0..FRAME_SAMPLES {
        let phase = (first + k as u64) * 271 % 8191;
        samples[k] = phase as i16 - 4095;
    }
    match Frame::of(&samples) {
        Some(frame) => frame,
        None => Frame::zero(),
    }
}

/// The talkers of this tick.
///
/// It is never inlined, so that it costs the same with a Book and without one, and is subtracted with the encoder runs.
#[inline(never)]
pub fn speech(tick: u64) -> Tick {
    choose(&[(TALKER, buzz(tick))])
}

/// What a listener hears of the talkers of this tick.
pub fn heard(tick: u64) -> Frame {
    let talkers = speech(tick);
    if talkers.len() == 0 {
        return Frame::zero();
    }
    talkers.talker(0).1
}
