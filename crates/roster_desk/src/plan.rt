//! Where a session stands in its roster.

ghost use Rattle.std.specs.Prelude.{◌≡◌, ◌+◌, ◌<◌, ℕ, List, [], ◌∷◌, IfSome, IfNone};
ghost use Rattle.roster_text.specs.declared.commands.Command.{Command};
ghost use Rattle.roster_text.specs.declared.commands.Timed.{Timed};
ghost use Rattle.session_spec.specs.Talkers.{Events, Applies, talkers};
ghost use Rattle.session_spec.specs.Events.{commands_of};
ghost use Rattle.desk.specs.Standing.{Admits};
ghost use Rattle.roster_desk.specs.Applied.{HasApplied, MayListen};
ghost use Rattle.roster_desk.specs.Left.{Left, Gives};

use roster_text::{Command, Roster};
use std::marker::Model;

/// A roster, and how many of its commands were handed out.
///
/// Contracts see both, and say which commands of a tick are left.
#[derive(Drop)]
pub struct Plan {
    roster: Roster,
    given: usize,
}

impl Model for Plan {
    ghost use Rattle.std.specs.Prelude.{◌≤◌, length};
    ghost use Rattle.roster_desk.specs.Left.{Planned};

    ghost Value = { Planned };

    ghost view = { λ p. record { timed = p.roster.timed; given = p.given } };

    ghost invariant = { λ p. p.given ≤ length p.roster.timed };
}

impl Plan {
    /// A roster of which nothing was handed out. Takes no memory.
    pub fn new(roster: Roster) -> Plan
        ensures roster { result.timed ≡ roster.timed }
        ensures left { Left result 0 (commands_of roster.timed 0) }
        ensures nothing_applied { HasApplied result [] }
    {
        Plan { roster, given: 0 }
    }

    /// The next command of a tick, unless none of that tick is left. Takes no memory.
    pub fn next(&mut self, tick: u32) -> Option<Command>
        requires { tick < 4320000 }
        ensures roster { self.new.timed ≡ self.old.timed }
        ensures some { (cs : List Timed) → Left self.old tick cs → IfSome result (λ command. Gives self.new tick cs command) }
        ensures none { (cs : List Timed) → Left self.old tick cs →
            IfNone result ((cs ≡ []) × Left self.new (tick + 1) (commands_of self.old.timed (tick + 1))) }
        ensures same { IfNone result (self.new ≡ self.old) }

        // Where what was handed out before was applied, the command may be applied now.
        ensures applied { (h : Events) → HasApplied self.old h → IfSome result (λ command.
            Admits (talkers h) command × MayListen h command × HasApplied self.new (Applies command ∷ h)) }
    {
        if self.given == self.roster.len() {
            return None;
        }
        let timed = self.roster.timed(self.given);
        if timed.at >= 20 * (tick + 1) {
            return None;
        }
        self.given += 1;
        Some(timed.command)
    }
}
