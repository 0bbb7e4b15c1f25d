//! What a roster's grammar gives a desk. The law is the contract of a function that does nothing.

ghost use Rattle.std.specs.Prelude.{◌≡◌, ◌≢◌, ◌∷◌, ◌++◌, ℕ, List, Option, Some, reverse};
ghost use Rattle.std.specs.List.{AllByRecursion};
ghost use Rattle.roster_text.specs.declared.commands.Talk.{Talk};
ghost use Rattle.roster_text.specs.declared.commands.Listen.{Listen};
ghost use Rattle.roster_text.specs.declared.commands.Command.TheVariants.{Join};
ghost use Rattle.roster_text.specs.declared.commands.Timed.{Timed};
ghost use Rattle.roster_text.specs.Roster.{Told, IsRoster};
ghost use Rattle.session_spec.specs.Talkers.{Events, talkers};
ghost use Rattle.roster_desk.specs.Applied.{Follow};

/// A member that a roster lets join isn't talking then, where the commands before it were applied and no other.
pub fn joiner_is_no_talker()
    ensures { (told : Told) (before after : List Timed) (at member : ℕ) (talk : Option Talk) (listen : Option Listen) (h : Events) →
        IsRoster told → told.timed ≡ before ++ record { at = at; command = Join member talk listen } ∷ after →
        Follow h (reverse before) → AllByRecursion (λ t. t.member ≢ member) (talkers h) }
{}
