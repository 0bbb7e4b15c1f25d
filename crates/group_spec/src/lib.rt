//! Encoder groups of a conference: which listeners wait for one run, which rest in one state, and what holds of these groups
//! whatever happens.
//!
//! Rests on conference_spec (the core machine, its feed, tasks and runs).
//! Promises: laws, each the contract of a function with an empty body.
#![tactic(auto)]

ghost use Rattle.std.specs.Prelude.{◌≡◌, List};
ghost use Rattle.conference_spec.specs.Coding.{Coder, Tells};
ghost use Rattle.conference_spec.specs.Feed.{Feed};
ghost use Rattle.conference_spec.specs.Base.{AreTwins};
ghost use Rattle.conference_spec.specs.Machine.{Core, Event, core_after};
ghost use Rattle.group_spec.specs.Groups.{groups};
ghost use Rattle.group_spec.specs.Carry.{Carry, CarryAtRest, IsIdle};

/// The groups of a core carry it, after every list of events: whoever is present or waits for a run is in just one group,
/// which is of its rate, at the first tick that it hasn't passed, and at rest has the state that its own mixes have left;
/// no two groups wait for one run, and no two that rest are of one rate and state.
pub fn groups_carry()
    ensures always { (coder : Coder) → Tells coder → (events : List Event) → Carry coder (core_after coder events) (groups coder (core_after coder events)) }
    ensures at_rest { (coder : Coder) → Tells coder → (events : List Event) → IsIdle (core_after coder events) →
        CarryAtRest coder (core_after coder events) (groups coder (core_after coder events)) }
{}

/// What a cut keeps is enough for groups: cores that have done the same since cuts with equal bases have the same groups.
pub fn twins_have_one_division()
    ensures { (coder : Coder) (p q s : Feed) (c d : Core) → AreTwins coder p q s c d → groups coder c ≡ groups coder d }
{}
