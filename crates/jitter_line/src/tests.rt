//! A line through its edges, with values worked out by hand.

use crate::{Line, Put};
use g726_bits::Frame;
use std::test::Fail;

fn steady(sample: i16) -> Result<Frame, Fail> {
    Ok(Frame::of(&[sample; 160]).ok_or("a sample out of range")?)
}

/// Puts a packet of 160 samples.
fn put(line: &mut Line, stamp: u32, frame: &Frame) -> Put {
    line.put(stamp, frame.samples())
}

/// The edges of the window, a duplicate, an overlap, a gap and a wrap of the timestamp.
#[test]
fn places(rt: HostRuntime) -> Result<(), Fail> {
    let mut line = Line::new(rt.alloc()).ok().ok_or("no memory")?;
    let (five, six, seven) = (steady(5)?, steady(6)?, steady(7)?);
    assert_eq!(rt; line.pull(), Frame::zero());
    assert_eq!(rt; put(&mut line, 0, &seven), Put::Took { new: 160 });
    assert_eq!(rt; put(&mut line, 0, &five), Put::Took { new: 0 });
    assert_eq!(rt; put(&mut line, 4_294_966_657, &five), Put::Took { new: 1 });
    assert_eq!(rt; put(&mut line, 4_294_966_656, &five), Put::Late);
    assert_eq!(rt; put(&mut line, 2560, &six), Put::Took { new: 160 });
    assert_eq!(rt; put(&mut line, 2561, &six), Put::Early);
    assert_eq!(rt; put(&mut line, 80, &six), Put::Took { new: 80 });

    let mut first = [0; 160];
    first[0] = 5;
    assert_eq!(rt;
        line.pull(),
        Frame::of(&first).ok_or("a sample out of range")?
    );
    assert_eq!(rt; line.pull(), Frame::zero());
    assert_eq!(rt; line.pull(), Frame::zero());
    assert_eq!(rt; line.pull(), seven);
    let mut half = [0; 160];
    for k in 0..80_usize {
        half[k] = 6;
    }
    assert_eq!(rt;
        line.pull(),
        Frame::of(&half).ok_or("a sample out of range")?
    );
    assert_eq!(rt; line.pull(), Frame::zero());
    Ok(())
}

/// Twenty-four packets are refused in succession, and the 25th restarts the line.
#[test]
fn restart(rt: HostRuntime) -> Result<(), Fail> {
    let mut line = Line::new(rt.alloc()).ok().ok_or("no memory")?;
    let (seven, eight) = (steady(7)?, steady(8)?);
    assert_eq!(rt; put(&mut line, 0, &seven), Put::Took { new: 160 });
    for _ in 0..24 {
        assert_eq!(rt; put(&mut line, 4_294_966_656, &eight), Put::Late);
    }
    assert_eq!(rt; put(&mut line, 4_294_966_656, &eight), Put::Restarted);
    for _ in 0..3 {
        assert_eq!(rt; line.pull(), Frame::zero());
    }
    assert_eq!(rt; line.pull(), eight);
    Ok(())
}
