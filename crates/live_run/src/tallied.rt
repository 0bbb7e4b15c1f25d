//! A conference whose listeners are tallied.

ghost use Rattle.std.specs.Prelude.{◌≡◌, ◌<◌, ◌+◌, ◌∷◌, false, IfOk, OnOk};
ghost use Rattle.conference_spec.specs.declared.Entry.TheVariants.{Close, Collect};
ghost use Rattle.conference_spec.specs.Codec.{g726};
ghost use Rattle.conference_spec.specs.Feed.{Feed, closes, collects, ended, kept};
ghost use Rattle.conference_spec.specs.Packets.{sent};
ghost use Rattle.desk_run.specs.Handing.{IsSendable};
ghost use Rattle.live_run.specs.Standing.{StandsTallied};

use conference_spec::JoinSpec;
use desk_run::{Audience, Conference};
use edge_io::Memory;
use live_tally::Tallies;
use std::alloc::Global;
use talk_mix::Tick;
use tick_core::Packets;

/// A conference, the tallies of its listeners, and how many ticks were closed.
#[derive(Drop)]
pub(crate) struct Tallied<C: Conference> {
    pub(crate) conference: C,
    pub(crate) tallies: Tallies,
    pub(crate) closed: u64,
}

impl<C: Conference> Audience for Tallied<C> {
    type Post = ();

    ghost stands = { λ t h n. StandsTallied (λ f m. C.stands t.conference f m) t.tallies t.closed h n };

    ghost post = { λ t. tt };

    fn join(&mut self, spec: JoinSpec) -> Result<(), Memory> {
        self.tallies.join(spec, self.closed)?;
        self.conference.join(spec)
    }

    fn leave(&mut self, member: u32) {
        self.tallies.leave(member, self.closed);
        self.conference.leave(member);
    }
}

/// Closes a tick with these talkers, and hands out its packets; waits for them where they aren't there yet.
///
/// # Errors
///
/// `Memory` where there was no memory. Then nothing is said of the conference.
pub(crate) fn hand_out<C: Conference>(
    alloc: Global,
    conference: &mut C,
    talkers: Tick,
) -> Result<Packets, Memory>
    requires { (h : Feed) × C.stands conference.old h (closes h) × (ended h ≡ false) × (closes h < 4320000) × (kept h < 18000)
        × (collects h ≡ closes h) }
    ensures packets { IfOk result (λ packets. (h : Feed) → C.stands conference.old h (closes h) →
        packets.packets ≡ sent g726 (closes h) (Close talkers ∷ h)) }
    ensures stands { OnOk result ((h : Feed) → C.stands conference.old h (closes h) →
        C.stands conference.new (Collect ∷ Close talkers ∷ h) (closes h + 1)) }
    ensures sendable { IfOk result (λ packets. IsSendable packets.packets) }
{
    let mut ready = conference.encode(alloc, talkers)?;
    match ready.pop() {
        Some(packets) => Ok(packets),
        None => match conference.next() {
            Some(packets) => Ok(packets),
            None => unreachable!(),
        },
    }
}
