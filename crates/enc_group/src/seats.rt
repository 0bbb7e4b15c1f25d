//! Who sits where: seats in join order.

ghost use Rattle.std.specs.Prelude.{◌≡◌, ◌<◌, ◌==◌, not, map, filter, find, count_by, length, slice_get, Some, vec_len, vec_capacity};
ghost use Rattle.std.specs.List.{list_any};
ghost use Rattle.enc_group.specs.Groups.{sits, is_of, key_in, moved};
ghost use Rattle.enc_group.specs.Mixes.{is_same, mixes_at, parted};

use crate::Seat;
use g726_bits::Frame;
use talk_mix::{Tick, mix};

/// The key of the group that a listener is in.
pub(crate) fn key_of(seats: &[Seat], listener: u32) -> Option<usize>
    ensures { result ≡ key_in listener seats.now }
{
    seats
        .iter()
        .find(|seat| seat.listener == listener)
        .map(|seat| seat.key)
}

/// Whether anybody sits at a key.
pub(crate) fn is_used(seats: &[Seat], key: usize) -> bool
    ensures { result ≡ list_any (sits key) seats.now }
{
    seats.iter().any(|seat| seat.key == key)
}

/// How many sit at a key.
pub(crate) fn count_at(seats: &[Seat], key: usize) -> usize
    ensures { result ≡ count_by (sits key) seats.now }
{
    seats.iter().filter(|seat| seat.key == key).count()
}

/// The listener at place `i` among those who sit at a key, counted from 0.
pub(crate) fn listener_at(seats: &[Seat], key: usize, i: usize) -> u32
    requires { i < count_by (sits key) seats.now }
    ensures { slice_get (map (λ s. s.listener) (filter (sits key) seats.now)) i ≡ Some result }
{
    let mut before = i;
    for seat in seats {
        if seat.key == key {
            if before == 0 {
                return seat.listener;
            }
            before -= 1;
        }
    }
    unreachable!()
}

/// What the first listener at a key hears, of those who don't hear `first`.
pub(crate) fn next_mix(seats: &[Seat], key: usize, first: &Frame, tick: &Tick) -> Option<Frame>
    ensures { result ≡ find (λ f. not (is_same f first.now)) (mixes_at key tick.now seats.now) }
{
    seats
        .iter()
        .filter(|seat| seat.key == key)
        .map(|seat| mix(seat.listener, tick))
        .find(|other| *other != *first)
}

/// Moves who sits at one key to another.
fn move_seat(seat: &mut Seat, from: usize, into: usize)
    ensures { seat.new ≡ moved from into seat.old }
{
    if seat.key == from {
        seat.key = into;
    }
}

/// Moves all of these who sit at one key to another.
fn move_each(seats: &mut [Seat], from: usize, into: usize)
    ensures { seats.new ≡ map (moved from into) seats.old }
{
    for seat in seats.iter_mut() {
        move_seat(seat, from, into);
    }
}

/// Moves who sits at one key and hears this mix to another.
fn part_seat(seat: &mut Seat, from: usize, into: usize, part: &Frame, tick: &Tick)
    ensures { seat.new ≡ parted from into part.now tick.now seat.old }
{
    if seat.key == from && mix(seat.listener, tick) == *part {
        seat.key = into;
    }
}

/// Moves those of these at one key who hear this mix to another.
fn part_each(seats: &mut [Seat], from: usize, into: usize, part: &Frame, tick: &Tick)
    ensures { seats.new ≡ map (parted from into part.now tick.now) seats.old }
{
    for seat in seats.iter_mut() {
        part_seat(seat, from, into, part, tick);
    }
}

/// Moves all who sit at one key to another.
pub(crate) fn move_all(seats: &mut Vec<Seat>, from: usize, into: usize)
    ensures items { seats.new.items ≡ map (moved from into) seats.old.items }
    ensures len { vec_len seats.new ≡ vec_len seats.old }
    ensures capacity { vec_capacity seats.new ≡ vec_capacity seats.old }
{
    move_each(seats.as_mut_slice(), from, into);
}

/// Moves those at one key who hear this mix to another.
pub(crate) fn move_part(seats: &mut Vec<Seat>, from: usize, into: usize, part: &Frame, tick: &Tick)
    ensures items { seats.new.items ≡ map (parted from into part.now tick.now) seats.old.items }
    ensures len { vec_len seats.new ≡ vec_len seats.old }
    ensures capacity { vec_capacity seats.new ≡ vec_capacity seats.old }
{
    part_each(seats.as_mut_slice(), from, into, part, tick);
}

/// Takes a listener's seat away.
pub(crate) fn remove(seats: &mut Vec<Seat>, listener: u32)
    ensures items { seats.new.items ≡ filter (λ s. not (is_of listener s)) seats.old.items }
    ensures capacity { vec_capacity seats.new ≡ vec_capacity seats.old }
{
    seats.retain(|seat| seat.listener != listener);
}
