//! What the numbers of a report add up to. Each law is the contract of a function that does nothing.
ghost use Rattle.std.specs.Prelude.{◌≡◌, ◌+◌, List};
ghost use Rattle.roster_text.specs.declared.commands.Timed.{Timed};
ghost use Rattle.conference_spec.specs.Feed.{Feed, closes};
ghost use Rattle.session_spec.specs.Talkers.{Events};
ghost use Rattle.session_spec.specs.Events.{refused};
ghost use Rattle.g726_bits.specs.declared.Rate.TheVariants.{R16, R24, R32, R40};
ghost use Rattle.conference_spec.specs.Codec.{g726};
ghost use Rattle.conference_spec.specs.Tasks.{due};
ghost use Rattle.session_account.specs.Arriving.{arrived};
ghost use Rattle.session_account.specs.Encoding.{runs_at};
ghost use Rattle.session_account.specs.Speaking.{silent, spoken};
ghost use Rattle.session_account.specs.Laws.{refused_in, ticks_in};

/// What a report says was refused, kind by kind, is what the session's summary counts as refused.
pub fn refusals_add_up()
    ensures { (h : Events) → refused_in (arrived h) ≡ refused h }
{}

/// The ticks that a report counts by how many were heard in them are all that were closed.
pub fn ticks_add_up()
    ensures { (plan : List Timed) (f : Feed) → ticks_in (spoken (silent plan) f).crowd ≡ closes f }
{}

/// The runs that a report counts by their rates are all that were due.
pub fn runs_add_up()
    ensures { (f : Feed) → runs_at R16 f + (runs_at R24 f + (runs_at R32 f + runs_at R40 f)) ≡ due g726 f }
{}
