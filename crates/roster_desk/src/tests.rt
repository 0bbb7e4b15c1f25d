//! The first tick of small rosters, told to an audience that only counts.

use crate::RosterDesk;
use conference_spec::JoinSpec;
use desk_run::{Audience, DeskSide};
use edge_io::Memory;
use roster_text::read;
use std::test::Fail;

/// Counts who joins and who leaves.
#[derive(Drop)]
struct Counter {
    joins: u32,
    leaves: u32,
}

impl Audience for Counter {
    type Post = ();

    ghost stands = { λ c h n. Unit {0} };

    ghost post = { λ c. tt };

    fn join(&mut self, _spec: JoinSpec) -> Result<(), Memory> {
        self.joins = self.joins.saturating_add(1);
        Ok(())
    }

    fn leave(&mut self, _member: u32) {
        self.leaves = self.leaves.saturating_add(1);
    }
}

/// Only the commands of the first 20 ms are told, and of those the joins of listeners and all leaves.
#[test]
fn told_in_the_first_tick(rt: HostRuntime) -> Result<(), Fail> {
    let rosters: [(&[u8], u32, u32); 5] = [
        (b"0 end\n", 0, 0),
        (b"0 join 1 pcmu:5 -\n0 leave 1\n20 end\n", 0, 1),
        (b"0 join 1 pcmu:5 32 97 7 0 0\n19 leave 1\n20 end\n", 1, 1),
        (
            b"0 join 1 - 16 96 7 0 0\n19 join 2 - 40 127 8 0 0\n20 leave 1\n40 end\n",
            2,
            0,
        ),
        (b"20 join 1 - 16 96 7 0 0\n40 end\n", 0, 0),
    ];
    for (text, joins, leaves) in rosters {
        let roster = read(rt.alloc(), text).ok().ok_or("a lawful roster")?;
        let mut desk = RosterDesk::new(rt.alloc(), roster);
        let mut audience = Counter {
            joins: 0,
            leaves: 0,
        };
        desk.commands(rt.alloc(), 0, &mut audience)
            .ok()
            .ok_or("no memory")?;
        assert_eq!(rt; audience.joins, joins);
        assert_eq!(rt; audience.leaves, leaves);
    }
    Ok(())
}
