//! Groups of listeners.

ghost use Rattle.std.specs.Prelude.{◌≡◌, ◌≢◌, ℕ, ◌+◌, ◌<◌, ◌≤◌, ◌↔◌, ◌⊎◌, [], ◌∷◌, ◌++◌, length, map, IsSome, IsTrue, IsOk, OnOk, IfSome, slice_get, Some, None, true, false, is_some, ◌&&◌, if◌then◌else◌};
ghost use Rattle.std.specs.List.{list_any, AllByRecursion};
ghost use Rattle.g726_bits.specs.State.{start};

use crate::places::{self, Wanted};
use crate::{Group, Parts, Seat, seats};
use edge_io::Memory;
use g726_bits::{Frame, Rate};
use g726_codec::EncState;
use slab::Slab;
use std::alloc::Global;
use std::marker::Model;
use talk_mix::{Tick, mix};

/// Groups of listeners, each with one encoder state for all of its listeners, under keys.
///
/// Contracts see what each key has, and beside it who sits at which key, in join order. So the listeners of a group are
/// those who sit at its key. `spare` is how many listeners can still be admitted without memory.
#[derive(Drop)]
pub struct Groups {
    groups: Slab<Group>,
    seats: Vec<Seat>,
    spare: usize,
}

impl Model for Groups {
    ghost use Rattle.enc_group.specs.Groups.{Grouping};

    ghost Value = { Grouping };

    ghost use Rattle.enc_group.specs.Inside.{IsKept};

    ghost view = { λ g. record { groups = g.groups.slots; seats = g.seats.items; spare = g.spare } };

    ghost invariant = { λ g. IsKept g.groups g.seats g.spare };
}

impl Groups {
    ghost use Rattle.enc_group.specs.Groups.{group_at, IsThere, sits, members, order, key_of, EachOnce, Sets, without, moved, is_at, is_new, IsLeast, IsFull, IsVacant, MayMerge, IsEntrance, LosesNoJob};
    ghost use Rattle.enc_group.specs.Mixes.{is_same, heard, mixes_at, each_once, divided, parted, has_key, KeysDiffer};

    /// No groups.
    pub fn new(alloc: Global) -> Groups
        ensures groups { (key : ℕ) → group_at result key ≡ None }
        ensures seats { result.seats ≡ [] }
        ensures spare { result.spare ≡ 0 }
    {
        Groups {
            groups: Slab::new(alloc),
            seats: Vec::new(alloc),
            spare: 0,
        }
    }

    /// Makes room for `n` more listeners.
    ///
    /// `Memory` where there was no memory. The groups and their listeners stay as they are.
    pub fn reserve(&mut self, n: usize) -> Result<(), Memory>
        ensures room { OnOk result (n ≤ self.new.spare) }
        ensures grows { self.old.spare ≤ self.new.spare }
        ensures groups { self.new.groups ≡ self.old.groups }
        ensures seats { self.new.seats ≡ self.old.seats }
    {
        if self.spare >= n {
            return Ok(());
        }
        self.seats.reserve(n)?;
        let more = self.seats.len() - self.groups.len() + n;
        self.groups.reserve(more)?;
        self.spare = n;
        Ok(())
    }

    /// Lets a listener into the group of this rate and tick that holds the start state, which is made where there is
    /// none. Where there are several, it is the one of least key.
    ///
    /// Gives the group's key.
    pub fn admit(&mut self, listener: u32, rate: Rate, tick: u64) -> usize
        requires room { 0 < self.old.spare }
        requires new { key_of self.old listener ≡ None }
        ensures key { IsEntrance (is_new rate tick) self.old.groups result }
        ensures group { group_at self.new result ≡ Some (record { rate = rate; tick = tick; state = Some start }) }
        ensures others { (key : ℕ) → key ≢ result → group_at self.new key ≡ group_at self.old key }
        ensures seat { self.new.seats ≡ self.old.seats ++ (record { listener = listener; key = result }) ∷ [] }
        ensures spare { self.new.spare + 1 ≡ self.old.spare }
    {
        let key = places::enter(&mut self.groups, rate, tick);
        self.seats.push_reserved(Seat { listener, key });
        self.spare -= 1;
        key
    }

    /// Moves a group's state out, and leaves its place vacant.
    pub fn lift(&mut self, key: usize) -> EncState
        requires full { IsFull (group_at self.old key) }
        ensures state { IfSome (group_at self.old key) (λ g. g.state ≡ Some result) }
        ensures groups { IfSome (group_at self.old key) (λ g. Sets self.old.groups self.new.groups key (Some (record g { state = None }))) }
        ensures seats { self.new.seats ≡ self.old.seats }
        ensures spare { self.new.spare ≡ self.old.spare }
    {
        let group = places::group(&self.groups, key);
        let Some(state) = group.state else {
            unreachable!()
        };
        places::put(
            &mut self.groups,
            key,
            Group {
                state: None,
                ..group
            },
        );
        state
    }

    /// Fills a group's vacant place. The group encodes `tick` next.
    pub fn land(&mut self, key: usize, tick: u64, state: EncState)
        requires vacant { IsVacant (group_at self.old key) }
        ensures groups { IfSome (group_at self.old key) (λ g. Sets self.old.groups self.new.groups key (Some (record { rate = g.rate; tick = tick; state = Some state }))) }
        ensures seats { self.new.seats ≡ self.old.seats }
        ensures spare { self.new.spare ≡ self.old.spare }
    {
        let rate = self.rate(key);
        let state = Some(state);
        places::put(&mut self.groups, key, Group { rate, tick, state });
    }

    /// Moves all listeners of one group into another, and removes the first.
    pub fn merge(&mut self, from: usize, into: usize)
        requires differ { from ≢ into }
        requires like { MayMerge (group_at self.old from) (group_at self.old into) }
        ensures groups { Sets self.old.groups self.new.groups from None }
        ensures seats { self.new.seats ≡ map (moved from into) self.old.seats }
        ensures order { order self.new ≡ order self.old }
        ensures spare { self.new.spare ≡ self.old.spare }
    {
        places::take_away(&mut self.groups, from);
        seats::move_all(&mut self.seats, from, into);
    }

    /// Takes a listener out, and removes its group where that is then empty.
    ///
    /// `false` where the listener is in no group.
    pub fn drop_left(&mut self, listener: u32) -> bool
        requires keeps { LosesNoJob self.old listener }
        ensures found { result ≡ is_some (key_of self.old listener) }
        ensures seats { self.new.seats ≡ without listener self.old.seats }
        ensures used { (key : ℕ) → list_any (sits key) self.new.seats ≡ true → group_at self.new key ≡ group_at self.old key }
        ensures empty { (key : ℕ) → list_any (sits key) self.new.seats ≡ false → group_at self.new key ≡ None }
        ensures spare { self.new.spare ≡ self.old.spare + (if is_some (key_of self.old listener) then 1 else 0) }
    {
        let Some(key) = seats::key_of(self.seats.as_slice(), listener) else {
            return false;
        };
        seats::remove(&mut self.seats, listener);
        let used = seats::is_used(self.seats.as_slice(), key);
        places::settle(&mut self.groups, key, used);
        self.spare += 1;
        true
    }

    /// The key of a listener's group; `None` where the listener is in no group.
    pub fn key_of(&self, listener: u32) -> Option<usize>
        ensures key { result ≡ key_of self.now listener }
        ensures there { IfSome result (IsThere self.now) }
        ensures once { EachOnce (order self.now) }
    {
        seats::key_of(self.seats.as_slice(), listener)
    }

    /// The least key, not below `from`, of a group that encodes this tick next; `None` where there is none.
    pub fn first_at(&self, tick: u64, from: usize) -> Option<usize>
        ensures { IsLeast (is_at tick) self.now.groups from result }
    {
        places::least(&self.groups, from, Wanted::At(tick))
    }

    /// The rate of a group.
    pub fn rate(&self, key: usize) -> Rate
        requires { IsThere self.now key }
        ensures { IfSome (group_at self.now key) (λ g. result ≡ g.rate) }
    {
        places::group(&self.groups, key).rate
    }

    /// The tick that a group encodes next.
    pub fn tick(&self, key: usize) -> u64
        requires { IsThere self.now key }
        ensures { IfSome (group_at self.now key) (λ g. result ≡ g.tick) }
    {
        places::group(&self.groups, key).tick
    }

    /// The state of a group; `None` where it is lifted.
    pub fn state(&self, key: usize) -> Option<EncState>
        requires { IsThere self.now key }
        ensures { IfSome (group_at self.now key) (λ g. result ≡ g.state) }
    {
        places::group(&self.groups, key).state
    }

    /// How many listeners a group has, at least 1.
    pub fn len_of(&self, key: usize) -> usize
        requires { IsThere self.now key }
        ensures value { result ≡ length (members self.now key) }
        ensures peopled { 0 < result }
    {
        seats::count_at(self.seats.as_slice(), key)
    }

    /// The listener at place `i` of a group, in join order, counted from 0.
    pub fn listener(&self, key: usize, i: usize) -> u32
        requires there { IsThere self.now key }
        requires inside { i < length (members self.now key) }
        ensures { slice_get (members self.now key) i ≡ Some result }
    {
        seats::listener_at(self.seats.as_slice(), key, i)
    }

    /// Divides a group by the value of what its listeners hear of a tick.
    ///
    /// The part of the first listener keeps the key, and every other part becomes a new group with a copy of the state.
    pub fn split(&mut self, key: usize, tick: &Tick) -> Parts
        requires full { IsFull (group_at self.old key) }
        ensures parts { map (λ p. p.1) result ≡ each_once (mixes_at key tick.now self.old.seats) }
        ensures keeps { IfSome (slice_get result 0) (λ p. p.0 ≡ key) }
        ensures apart { KeysDiffer result }
        ensures seats { self.new.seats ≡ map (divided key tick.now result) self.old.seats }
        ensures order { order self.new ≡ order self.old }
        ensures copies { AllByRecursion (λ p. group_at self.new p.0 ≡ group_at self.old key) result }
        ensures fresh { AllByRecursion (λ p. p.0 ≢ key → group_at self.old p.0 ≡ None) result }
        ensures others { (other : ℕ) → has_key result other ≡ false → group_at self.new other ≡ group_at self.old other }
        ensures spare { self.new.spare ≡ self.old.spare }
    {
        let _talkers = tick.len();
        let first = mix(seats::listener_at(self.seats.as_slice(), key, 0), tick);
        let mut parts = Parts::first(key, first);
        while let Some(part) = seats::next_mix(self.seats.as_slice(), key, &first, tick) {
            let new_key = self.part_off(key, &first, &part, tick);
            parts = parts.with(&(new_key, part));
        }
        parts
    }

    /// Makes a group of those at a key who hear this mix, with a copy of the state.
    fn part_off(&mut self, key: usize, first: &Frame, part: &Frame, tick: &Tick) -> usize
        requires there { IsThere self.old key }
        requires stays { list_any (λ s. sits key s && is_same (heard tick.now s) first.now) self.old.seats ≡ true }
        requires goes { list_any (λ s. sits key s && is_same (heard tick.now s) part.now) self.old.seats ≡ true }
        requires differ { is_same first.now part.now ≡ false }
        ensures fresh { group_at self.old result ≡ None }
        ensures sets { Sets self.old.groups self.new.groups result (group_at self.old key) }
        ensures seats { self.new.seats ≡ map (parted key result part.now tick.now) self.old.seats }
        ensures spare { self.new.spare ≡ self.old.spare }
    {
        let group = places::group(&self.groups, key);
        let new_key = places::add(&mut self.groups, group.rate, group.tick, group.state);
        seats::move_part(&mut self.seats, key, new_key, part, tick);
        new_key
    }
}
