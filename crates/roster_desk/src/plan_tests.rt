//! A roster handed out tick by tick.

use crate::plan::Plan;
use roster_text::{Command, read};
use std::test::Fail;

#[test]
fn commands_by_ticks(rt: HostRuntime) -> Result<(), Fail> {
    let text = b"0 join 1 - -\n19 join 2 - -\n20 leave 1\n61 leave 2\n65 end\n";
    let roster = read(rt.alloc(), text).ok().ok_or("a lawful roster")?;
    let mut plan = Plan::new(roster);
    let join = |member| Command::Join {
        member,
        talk: None,
        listen: None,
    };
    for (tick, command) in [
        (0, Some(join(1))),
        (0, Some(join(2))),
        (0, None),
        (1, Some(Command::Leave { member: 1 })),
        (1, None),
        (2, None),
        (3, Some(Command::Leave { member: 2 })),
        (3, None),
        (4, None),
    ] {
        assert_eq!(rt; plan.next(tick), command, "tick {tick}");
    }
    Ok(())
}
