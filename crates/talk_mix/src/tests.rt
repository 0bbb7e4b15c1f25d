//! The rules of choice and mix at their edges, with values worked out by hand.

use crate::{Tick, choose, loudness, mix};
use g726_bits::Frame;
use std::test::Fail;

fn steady(sample: i16) -> Result<Frame, Fail> {
    Ok(Frame::of(&[sample; 160]).ok_or("a sample out of range")?)
}

/// The louder are chosen, of equals the lower members; a loudness of 1,600 is enough and 1,599 isn't.
#[test]
fn choices(rt: HostRuntime) -> Result<(), Fail> {
    let (loud, soft, least) = (steady(100)?, steady(-50)?, steady(10)?);
    let mut samples = [10; 160];
    samples[7] = -9;
    let below = Frame::of(&samples).ok_or("a sample out of range")?;

    assert_eq!(rt; loudness(&soft), 8000);
    assert_eq!(rt; loudness(&least), 1600);
    assert_eq!(rt; loudness(&below), 1599);
    assert_eq!(rt; loudness(&steady(-8192)?), 1_310_720);

    let tick = choose(&[(4, soft), (3, soft), (1, loud), (2, loud)]);
    assert_eq!(rt; tick.len(), 3);
    assert_eq!(rt; tick.talker(0), (1, loud));
    assert_eq!(rt; tick.talker(1), (2, loud));
    assert_eq!(rt; tick.talker(2), (3, soft));

    let alone = choose(&[(9, below), (8, least)]);
    assert_eq!(rt; alone.len(), 1);
    assert_eq!(rt; alone.talker(0), (8, least));
    assert!(rt; choose(&[(9, below)]) == Tick::empty());
    assert!(rt; choose(&[]) == Tick::empty());
    Ok(())
}

/// A listener hears all but itself, and the sum is limited once.
#[test]
fn mixes(rt: HostRuntime) -> Result<(), Fail> {
    for (voice, limit) in [(8031, 8191), (-8031, -8192)] {
        let frame = steady(voice)?;
        let three = choose(&[(1, frame), (2, frame), (3, frame)]);
        assert_eq!(rt; mix(4, &three), steady(limit)?);
        assert_eq!(rt; mix(1, &three), steady(limit)?);
    }

    let tick = choose(&[(1, steady(8000)?), (2, steady(8000)?), (3, steady(-7000)?)]);
    assert_eq!(rt; mix(4, &tick), steady(8191)?, "9000 is limited");
    assert_eq!(rt; mix(1, &tick), steady(1000)?);
    assert_eq!(rt; mix(3, &tick), steady(8191)?);
    let two = choose(&[(1, steady(8000)?), (3, steady(-7000)?)]);
    assert_eq!(rt; mix(2, &two), steady(1000)?);
    assert_eq!(rt; mix(1, &two), steady(-7000)?);
    let one = choose(&[(3, steady(20)?)]);
    assert_eq!(rt; mix(3, &one), Frame::zero());
    assert_eq!(rt; mix(4, &one), steady(20)?);
    assert_eq!(rt; mix(4, &Tick::empty()), Frame::zero());
    Ok(())
}
