//! The groups under their keys.

ghost use Rattle.std.specs.Prelude.{◌≡◌, ◌+◌, ◌≤◌, Some, None, if◌then◌else◌};
ghost use Rattle.slab.specs.Slab.{HasRoomFor, ContainsKey};
ghost use Rattle.g726_bits.specs.State.{start};
ghost use Rattle.enc_group.specs.Groups.{IsLeast, IsEntrance, Sets, group_in, passes, is_new};
ghost use Rattle.enc_group.specs.Wanted.{test_of};

use crate::Group;
use g726_bits::Rate;
use g726_codec::EncState;
use slab::Slab;

/// What the groups that are looked for are like.
#[derive(Clone, Copy)]
pub(crate) enum Wanted {
    /// They encode this tick next.
    At(u64),
    /// They are of this rate, encode this tick next, and hold the start state.
    New(Rate, u64),
}

impl Wanted {
    ghost use Rattle.enc_group.specs.Wanted.{test_of};

    /// Whether a group is looked for.
    fn is_met(self, group: &Group) -> bool
        ensures { result ≡ test_of self group.now }
    {
        match self {
            Wanted::At(tick) => group.tick == tick,
            Wanted::New(rate, tick) => group.rate == rate
                && group.tick == tick
                && group.state.is_some_and(|state| state == EncState::start()),
        }
    }
}

/// Whether the group under a key is there, and looked for.
fn meets(groups: &Slab<Group>, key: usize, wanted: Wanted) -> bool
    ensures { result ≡ passes (test_of wanted) (group_in groups.now.slots key) }
{
    match groups.get(key) {
        Some(group) => wanted.is_met(group),
        None => false,
    }
}

/// The least key, not below `from`, of a group that is looked for.
pub(crate) fn least(groups: &Slab<Group>, from: usize, wanted: Wanted) -> Option<usize>
    ensures { IsLeast (test_of wanted) groups.now.slots from result }
{
    for key in from..groups.capacity() {
        if meets(groups, key, wanted) {
            return Some(key);
        }
    }
    None
}

/// The group under a key.
pub(crate) fn group(groups: &Slab<Group>, key: usize) -> Group
    requires { ContainsKey groups.now key }
    ensures { group_in groups.now.slots key ≡ Some result }
{
    let Some(group) = groups.get(key) else {
        unreachable!()
    };
    *group
}

/// Puts another group under a key.
pub(crate) fn put(groups: &mut Slab<Group>, key: usize, group: Group)
    requires { ContainsKey groups.old key }
    ensures sets { Sets groups.old.slots groups.new.slots key (Some group) }
    ensures capacity { groups.new.capacity ≡ groups.old.capacity }
{
    if let Some(place) = groups.get_mut(key) {
        *place = group;
    }
}

/// Puts a group under a key that was free.
pub(crate) fn add(groups: &mut Slab<Group>, rate: Rate, tick: u64, state: Option<EncState>) -> usize
    requires { HasRoomFor groups.old 1 }
    ensures was_free { group_in groups.old.slots result ≡ None }
    ensures sets { Sets groups.old.slots groups.new.slots result (Some (record { rate = rate; tick = tick; state = state })) }
    ensures capacity { groups.new.capacity ≡ groups.old.capacity }
{
    groups.insert_reserved(Group { rate, tick, state })
}

/// The key of the group of this rate and tick that holds the start state, which is made where there is none.
pub(crate) fn enter(groups: &mut Slab<Group>, rate: Rate, tick: u64) -> usize
    requires { HasRoomFor groups.old 1 }
    ensures key { IsEntrance (is_new rate tick) groups.old.slots result }
    ensures sets { Sets groups.old.slots groups.new.slots result (Some (record { rate = rate; tick = tick; state = Some start })) }
    ensures capacity { groups.new.capacity ≡ groups.old.capacity }
{
    match least(groups, 0, Wanted::New(rate, tick)) {
        Some(key) => key,
        None => add(groups, rate, tick, Some(EncState::start())),
    }
}

/// Takes a group away, unless it is still used.
pub(crate) fn settle(groups: &mut Slab<Group>, key: usize, used: bool)
    requires { ContainsKey groups.old key }
    ensures sets { Sets groups.old.slots groups.new.slots key (if used then group_in groups.old.slots key else None) }
    ensures capacity { groups.new.capacity ≡ groups.old.capacity }
{
    if !used {
        take_away(groups, key);
    }
}

/// Takes a group away.
pub(crate) fn take_away(groups: &mut Slab<Group>, key: usize)
    requires { ContainsKey groups.old key }
    ensures sets { Sets groups.old.slots groups.new.slots key None }
    ensures capacity { groups.new.capacity ≡ groups.old.capacity }
{
    let _ = groups.remove(key);
}
