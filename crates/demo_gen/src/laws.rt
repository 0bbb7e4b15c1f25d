//! What the readers of rosters and captures make of a demo session's files. Each law is the contract of a function that
//! does nothing else.

ghost use Rattle.std.specs.Prelude.{◌≡◌, ◌<◌, ◌^◌, ℕ, Ok, None};
ghost use Rattle.roster_text.specs.Roster.{roster as read_roster};
ghost use Rattle.rtp_dump.specs.Spelling.{placed};
ghost use Rattle.rtp_dump.specs.Capture.{capture as read_capture};
ghost use Rattle.demo_gen.specs.Roster.{roster};
ghost use Rattle.demo_gen.specs.Commands.{told};
ghost use Rattle.demo_gen.specs.Capture.{capture, items};

/// The roster has no bad line. It tells who joins, talks, listens and leaves when, and that the end is after thirty seconds.
pub fn roster_is_lawful()
    ensures { read_roster roster ≡ Ok told }
{}

/// The capture has no fault: it is just the session's records, one after the other behind line and file head.
pub fn capture_is_whole()
    ensures { (number : ℕ) → read_capture (capture number) ≡ record { records = placed 39 (items number); fault = None } }
{
    rtp_dump::written_is_read();
}
