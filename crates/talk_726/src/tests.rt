//! A hearer through a start, a gap and a restart, with values worked out by hand.

use crate::Hearer;
use g726_bits::{Frame, Rate};
use jitter_line::Put;
use std::test::Fail;

/// Puts a payload, if it is one of whole codes that isn't too long.
fn put(hearer: &mut Hearer, stamp: u32, octets: &[u8]) -> Option<Put> {
    let bits = hearer.rate().bits() as usize;
    if octets.is_empty() || octets.len() > 200 * bits || 8 * octets.len() % bits != 0 {
        return None;
    }
    Some(hearer.put(stamp, octets))
}

/// Pulls the three frames before the first packet, which are silent, and the one that begins with it.
fn first_frame(hearer: &mut Hearer) -> Option<Frame> {
    for _ in 0..3 {
        if hearer.pull() != Frame::zero() {
            return None;
        }
    }
    Some(hearer.pull())
}

/// The sample of the first code in the start state, silence after the last code, and the same sample again once the line
/// was started anew.
#[test]
fn first_codes(rt: HostRuntime) -> Result<(), Fail> {
    let rows: [(Rate, &[u8], u32, i16); 6] = [
        (Rate::R32, &[0xf7], 2, 22),
        (Rate::R32, &[0xf8], 2, -22),
        (Rate::R32, &[0xff; 80], 160, 0),
        (Rate::R40, &[0xef, 0xff, 0xff, 0xff, 0xff], 8, 47),
        (Rate::R24, &[0xfb, 0xff, 0xff], 8, 15),
        (Rate::R16, &[0xfd], 4, 15),
    ];
    for (rate, octets, count, sample) in rows {
        let mut hearer = Hearer::new(rt.alloc(), rate).ok().ok_or("no memory")?;
        assert_eq!(rt;
            put(&mut hearer, 0, octets),
            Some(Put::Took { new: count }),
            "at {rate:?}"
        );
        let frame = first_frame(&mut hearer).ok_or("no silence")?;
        assert_eq!(rt; frame.samples()[0], sample, "at {rate:?}");
        assert_eq!(rt; hearer.pull(), Frame::zero(), "at {rate:?}");
        for _ in 0..24 {
            assert_eq!(rt; put(&mut hearer, 0, octets), Some(Put::Late), "at {rate:?}");
        }
        assert_eq!(rt;
            put(&mut hearer, 0, octets),
            Some(Put::Restarted),
            "at {rate:?}"
        );
        assert_eq!(rt; first_frame(&mut hearer), Some(frame), "at {rate:?}");
    }
    Ok(())
}
