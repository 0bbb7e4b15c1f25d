//! A feed step by step, with counts worked out by hand.

ghost use Rattle.std.specs.Prelude.{◌≡◌};
ghost use Rattle.book_feed.specs.Logged.{blank};

use crate::FeedLog;
use conference_spec::JoinSpec;
use edge_io::Memory;
use g726_bits::Rate;
use std::test::Fail;
use talk_mix::Tick;

/// What is done to a feed.
#[derive(Clone, Copy)]
enum Step {
    Join(u32),
    Leave(u32),
    Close,
    Collect,
    End,
}

fn spec(member: u32) -> JoinSpec {
    JoinSpec {
        member,
        rate: Rate::R32,
        pt: 96,
        ssrc: 7,
        first_seq: 1,
        first_stamp: 160,
        ticks: 1,
    }
}

/// Does a step, if it may be done.
fn take(log: &mut FeedLog, step: Step) -> Result<(), Memory> {
    log.reserve(1)?;
    let runs = !log.ended();
    match step {
        Step::Join(member) if runs => log.join(spec(member))?,
        Step::Leave(member) if runs => log.leave(member),
        Step::Close if runs && log.closed() < 100 => log.close(Tick::empty())?,
        Step::Collect if log.collected() < log.closed() => log.collect(),
        Step::End => log.end(),
        Step::Join(_) | Step::Leave(_) | Step::Close | Step::Collect => {}
    }
    Ok(())
}

/// Two come, one leaves, two ticks are closed, and one of them is handed out after the end.
#[test]
fn steps(rt: HostRuntime) -> Result<(), Fail> {
    let mut log = FeedLog::new(rt.alloc());
    let rows = [
        (Step::Join(5), 0, 0, false),
        (Step::Close, 1, 0, false),
        (Step::Join(4_294_967_295), 1, 0, false),
        (Step::Leave(5), 1, 0, false),
        (Step::Collect, 1, 1, false),
        (Step::Close, 2, 1, false),
        (Step::End, 2, 1, true),
        (Step::End, 2, 1, true),
        (Step::Collect, 2, 2, true),
    ];
    for (at, (step, closed, collected, ended)) in rows.into_iter().enumerate() {
        take(&mut log, step).ok().ok_or("no memory")?;
        assert_eq!(rt;
            (log.closed(), log.kept(), log.collected(), log.ended()),
            (closed, closed, collected, ended),
            "step {at}"
        );
    }
    assert_eq!(rt; log.len(), 8);
    for (member, joined) in [(5, true), (4_294_967_295, true), (7, false), (0, false)] {
        assert_eq!(rt; log.has_joined(member), joined, "member {member}");
    }
    Ok(())
}

/// A listener comes, and a cut is made after one tick.
fn begin(log: &mut FeedLog) -> Result<(), Memory>
    requires { log.old.feed ≡ blank }
{
    log.reserve(3)?;
    log.join(spec(5))?;
    log.close(Tick::empty())?;
    log.collect();
    log.cut(1);
    Ok(())
}

/// A cut is an entry, after which no tick is kept; all other counts go on, and who joined before it is known.
#[test]
fn cut(rt: HostRuntime) -> Result<(), Fail> {
    let mut log = FeedLog::new(rt.alloc());
    begin(&mut log).ok().ok_or("no memory")?;
    assert_eq!(rt;
        (log.len(), log.closed(), log.collected(), log.kept()),
        (4, 1, 1, 0)
    );
    for step in [Step::Join(7), Step::Close, Step::Leave(5)] {
        take(&mut log, step).ok().ok_or("no memory")?;
    }
    assert_eq!(rt;
        (log.len(), log.closed(), log.collected(), log.kept()),
        (7, 2, 1, 1)
    );
    for (member, joined) in [(5, true), (7, true), (0, false)] {
        assert_eq!(rt; log.has_joined(member), joined, "member {member}");
    }
    Ok(())
}
