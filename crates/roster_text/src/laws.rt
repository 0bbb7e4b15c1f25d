//! What the grammar of rosters gives. Each law is the contract of a function that does nothing.
ghost use Rattle.roster_text.specs.Orders.{AreInOrder};
ghost use Rattle.roster_text.specs.Ranges.{AreInRange};
ghost use Rattle.roster_text.specs.Roster.{Told, IsRoster};

/// The times of a roster's commands rise, and each command may stand after those before it.
pub fn commands_are_in_order()
    ensures { (told : Told) → IsRoster told → AreInOrder told.timed }
{}

/// The payload types that a roster tells are 96 to 127, and the ticks that a packet carries are 1 to 4.
pub fn commands_are_in_range()
    ensures { (told : Told) → IsRoster told → AreInRange told.timed }
{}
