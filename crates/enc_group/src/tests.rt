//! Groups over a few ticks, with keys worked out by hand.

ghost use Rattle.std.specs.Prelude.{◌≡◌, ◌+◌, ◌<◌, ◌≤◌, IfSome, Some, true};
ghost use Rattle.enc_group.specs.Groups.{group_at, key_of, IsFull, IsThere, MayMerge};

use crate::Groups;
use edge_io::Memory;
use g726_bits::{Frame, Rate};
use g726_codec::{EncState, Meter, encode};
use std::test::Fail;
use talk_mix::{Tick, choose, mix};

fn steady(sample: i16) -> Result<Frame, Fail> {
    Ok(Frame::of(&[sample; 160]).ok_or("a sample out of range")?)
}

/// Lets a listener in, unless it is in a group.
fn come(groups: &mut Groups, listener: u32, rate: Rate, tick: u64) -> Option<usize>
    requires room { 0 < groups.old.spare }
    ensures spare { groups.old.spare ≤ groups.new.spare + 1 }
{
    if groups.key_of(listener).is_some() {
        return None;
    }
    Some(groups.admit(listener, rate, tick))
}

/// The key of a listener's group, where its state is in place.
fn full_key(groups: &Groups, listener: u32) -> Option<usize>
    ensures key { IfSome result (λ key. key_of groups.now listener ≡ Some key) }
    ensures full { IfSome result (λ key. IsFull (group_at groups.now key)) }
{
    let key = groups.key_of(listener)?;
    let _state = groups.state(key)?;
    Some(key)
}

/// Takes a listener out whose group's state is in place; whether it did.
fn leave(groups: &mut Groups, listener: u32) -> bool
    ensures spare { result ≡ true → groups.new.spare ≡ groups.old.spare + 1 }
{
    full_key(groups, listener).is_some() && groups.drop_left(listener)
}

/// Divides a listener's group by what is heard of a tick; the keys of its parts.
fn divide(groups: &mut Groups, listener: u32, tick: &Tick) -> [Option<usize>; 4]
    ensures spare { groups.new.spare ≡ groups.old.spare }
{
    let mut keys = [None; 4];
    if let Some(key) = full_key(groups, listener) {
        let parts = groups.split(key, tick);
        for i in 0..parts.len() {
            keys[i] = Some(parts.part(i).0);
        }
    }
    keys
}

/// Runs the encoder of a listener's group over what the listener hears of a tick; the group's state is out for so long.
fn run(groups: &mut Groups, listener: u32, tick: &Tick, next: u64)
    ensures spare { groups.new.spare ≡ groups.old.spare }
{
    let Some(key) = full_key(groups, listener) else {
        return;
    };
    let rate = groups.rate(key);
    let state = groups.lift(key);
    let permit = Meter::new().issue();
    let done = encode(permit, rate, state, mix(listener, tick));
    groups.land(key, next, done.after());
}

fn is_same_rate(rate: Rate, other: Rate) -> bool
    ensures { result ≡ true → rate ≡ other }
{
    rate == other
}

fn is_same_state(state: &EncState, other: &EncState) -> bool
    ensures { result ≡ true → state.now ≡ other.now }
{
    *state == *other
}

/// Whether two groups are of one rate and tick, and in one state.
fn are_alike(groups: &Groups, from: usize, into: usize) -> bool
    requires from { IsThere groups.now from }
    requires into { IsThere groups.now into }
    ensures { result ≡ true → MayMerge (group_at groups.now from) (group_at groups.now into) }
{
    let (Some(state), Some(other)) = (groups.state(from), groups.state(into)) else {
        return false;
    };
    if groups.tick(from) != groups.tick(into) {
        return false;
    }
    if !is_same_rate(groups.rate(from), groups.rate(into)) {
        return false;
    }
    is_same_state(&state, &other)
}

/// Makes one group of those of two listeners, where they are alike; whether it did.
fn unite(groups: &mut Groups, from: u32, into: u32) -> bool
    ensures spare { groups.new.spare ≡ groups.old.spare }
{
    let (Some(from), Some(into)) = (groups.key_of(from), groups.key_of(into)) else {
        return false;
    };
    if from == into || !are_alike(groups, from, into) {
        return false;
    }
    groups.merge(from, into);
    true
}

/// Lets a listener go, and another come in its room.
fn replace(groups: &mut Groups, leaver: u32, comer: u32, rate: Rate, tick: u64) -> Option<usize> {
    if !leave(groups, leaver) {
        return None;
    }
    come(groups, comer, rate, tick)
}

/// The keys of the listeners 1 to 5; none for one that is in no group.
fn keys(groups: &Groups) -> [Option<usize>; 5] {
    [
        groups.key_of(1),
        groups.key_of(2),
        groups.key_of(3),
        groups.key_of(4),
        groups.key_of(5),
    ]
}

/// The first four listeners of a listener's group, in join order, and zeros where there are fewer.
fn together(groups: &Groups, listener: u32) -> [u32; 4] {
    let mut row = [0; 4];
    if let Some(key) = groups.key_of(listener) {
        for i in 0..groups.len_of(key).min(4) {
            row[i] = groups.listener(key, i);
        }
    }
    row
}

/// Two rates: a listener that comes a tick later is in a group of its own, until one silent tick more has left it in the
/// state that the others are in.
#[test]
fn unites_equal_states(rt: HostRuntime) -> Result<(), Fail> {
    let mut groups = Groups::new(rt.alloc());
    groups.reserve(4).ok().ok_or("no memory")?;
    let silent = Tick::empty();
    let first = come(&mut groups, 1, Rate::R24, 0);
    let other_rate = come(&mut groups, 4, Rate::R40, 0);
    let third = come(&mut groups, 3, Rate::R24, 0);
    assert_eq!(rt; (first, other_rate, third), (Some(0), Some(1), Some(0)));
    run(&mut groups, 1, &silent, 1);
    assert_eq!(rt; come(&mut groups, 2, Rate::R24, 1), Some(2));
    assert!(rt; !unite(&mut groups, 2, 1));
    run(&mut groups, 1, &silent, 2);
    run(&mut groups, 2, &silent, 2);
    assert!(rt; unite(&mut groups, 2, 1));
    assert_eq!(rt; keys(&groups), [Some(0), Some(0), Some(0), Some(1), None]);
    assert_eq!(rt; together(&groups, 1), [1, 3, 2, 0]);
    Ok(())
}

/// With no room left a group is divided into four, and who leaves makes room for one.
#[test]
fn divides_by_mix(rt: HostRuntime) -> Result<(), Fail> {
    let mut groups = Groups::new(rt.alloc());
    groups.reserve(5).ok().ok_or("no memory")?;
    let _third = come(&mut groups, 3, Rate::R32, 7);
    let _fourth = come(&mut groups, 4, Rate::R32, 7);
    let _first = come(&mut groups, 1, Rate::R32, 7);
    let _fifth = come(&mut groups, 5, Rate::R32, 7);
    let _second = come(&mut groups, 2, Rate::R32, 7);
    let spoken = choose(&[(1, steady(700)?), (2, steady(-500)?), (3, steady(90)?)]);
    let parts = divide(&mut groups, 2, &spoken);
    assert_eq!(rt; parts, [Some(0), Some(1), Some(2), Some(3)]);
    assert_eq!(rt;
        keys(&groups),
        [Some(2), Some(3), Some(0), Some(1), Some(1)]
    );
    assert_eq!(rt; together(&groups, 5), [4, 5, 0, 0]);
    assert_eq!(rt; replace(&mut groups, 1, 6, Rate::R32, 7), Some(0));
    assert_eq!(rt; together(&groups, 6), [3, 6, 0, 0]);
    assert_eq!(rt; keys(&groups), [None, Some(3), Some(0), Some(1), Some(1)]);
    Ok(())
}

/// Where there is no memory, all stays as it was, and so does the room that was left.
#[test]
fn reserve_without_memory(rt: HostRuntime) -> Result<(), Fail> {
    let mut groups = Groups::new(rt.alloc());
    groups.reserve(3).ok().ok_or("no memory")?;
    let _first = come(&mut groups, 1, Rate::R16, 0);
    let _second = come(&mut groups, 2, Rate::R24, 0);
    assert_eq!(rt; groups.reserve(usize::MAX), Err(Memory));
    assert_eq!(rt; keys(&groups), [Some(0), Some(1), None, None, None]);
    assert_eq!(rt; come(&mut groups, 3, Rate::R16, 0), Some(0));
    assert_eq!(rt; together(&groups, 3), [1, 3, 0, 0]);
    Ok(())
}
