//! What the encoder groups of a Book carry.
//!
//! Rests on group_spec (what groups are, and what holds of them in every core) and on tick_core (the cores that a Book stands
//! for).
//! Promises that the groups of each such core carry it. It has no must-fail edits, since it has no code that one could
//! change: those of the definitions stand in group_spec.
#![tactic(auto)]

ghost use Rattle.conference_spec.specs.Codec.{g726};
ghost use Rattle.conference_spec.specs.Machine.{Core};
ghost use Rattle.group_spec.specs.Groups.{groups};
ghost use Rattle.group_spec.specs.Carry.{Carry, CarryAtRest, IsIdle};
ghost use Rattle.tick_core.specs.Standing.{Stands};

use tick_core::Book;

/// In every Book, whoever is present or waits for a run is in just one group, which is of its rate and at the first tick that
/// it hasn't passed, and at rest has the state that its own mixes have left; no two groups wait for one run, and no two that
/// rest are of one rate and state. Where no run waits or is out, all groups rest.
pub fn groups_carry(book: &Book)
    ensures always { (c : Core) → Stands book.now c → Carry g726 c (groups g726 c) }
    ensures at_rest { (c : Core) → Stands book.now c → IsIdle c → CarryAtRest g726 c (groups g726 c) }
{}
