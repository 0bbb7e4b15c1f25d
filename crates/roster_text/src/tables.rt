//! Tables of numbers and seats.

ghost use Rattle.std.specs.Prelude.{◌≡◌, ◌+◌, ◌==◌, ◌||◌, ◌&&◌, ℕ, None, Some, false, not, is_some, nat_eq, OnOk, if◌then◌else◌};
ghost use Rattle.std.specs.HashMap.{get, hash_map_len};
ghost use Rattle.std.specs.HashSet.{contains};
ghost use Rattle.roster_text.specs.Places.{is_number, passes};

use crate::seat::Seat;
use std::alloc::AllocError;
use std::collections::{HashMap, HashSet};

/// Whether a number is in a set. Where there is none, it isn't.
pub(crate) fn is_taken(set: &HashSet<u32>, number: Option<u32>) -> bool
    ensures { result ≡ passes (contains nat_eq set.now) number }
{
    match number {
        None => false,
        Some(number) => set.contains(&number),
    }
}

/// Puts a number into a set, if there is one.
pub(crate) fn note(set: &mut HashSet<u32>, number: Option<u32>) -> Result<(), AllocError>
    ensures { OnOk result ((q : ℕ) → contains nat_eq set.new q ≡ (is_number q number || contains nat_eq set.old q)) }
{
    if let Some(number) = number {
        set.insert(number)?;
    }
    Ok(())
}

/// Takes a number out of a set, if there is one.
pub(crate) fn forget(set: &mut HashSet<u32>, number: Option<u32>)
    ensures { (q : ℕ) → contains nat_eq set.new q ≡ (not (is_number q number) && contains nat_eq set.old q) }
{
    if let Some(number) = number {
        set.remove(&number);
    }
}

/// Gives a member its seat.
pub(crate) fn put(seats: &mut HashMap<u32, Seat>, seat: Seat) -> Result<(), AllocError>
    ensures seats { OnOk result ((q : ℕ) → get nat_eq seats.new q ≡ (if seat.member == q then Some seat else get nat_eq seats.old q)) }
    ensures count { OnOk result (get nat_eq seats.old seat.member ≡ None → hash_map_len seats.new ≡ hash_map_len seats.old + 1) }
{
    seats.insert(seat.member, seat)?;
    Ok(())
}

/// Takes a member's seat away, if it has one.
pub(crate) fn remove(seats: &mut HashMap<u32, Seat>, member: u32) -> Option<Seat>
    ensures value { result ≡ get nat_eq seats.old member }
    ensures seats { (q : ℕ) → get nat_eq seats.new q ≡ (if member == q then None else get nat_eq seats.old q) }
    ensures count { hash_map_len seats.new + (if is_some result then 1 else 0) ≡ hash_map_len seats.old }
{
    seats.remove(&member)
}
