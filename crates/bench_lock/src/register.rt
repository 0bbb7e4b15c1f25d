//! The value under the lock.
ghost use Rattle.std.specs.Prelude.{◌≡◌, ◌+◌, ◌%◌, ◌-◌, ◌^◌, ◌<◌, min, length};

use book_lock::Turned;

/// Counts turns, and the entries that the desk made.
#[derive(Drop)]
pub struct Register {
    turns: u64,
    entries: u64,
}

impl Turned for Register {
    type Entry = ();

    type State = u64;

    ghost stands = { λ register feed state. (length feed ≡ register.entries) × (register.entries < 2 ^ 64) × (state ≡ register.turns) };

    fn fed(&self) -> u64 {
        self.entries
    }
}

impl Register {
    /// A register of no turns.
    pub fn new() -> Register
        ensures register { (result.turns ≡ 0) × (result.entries ≡ 0) }
    {
        Register {
            turns: 0,
            entries: 0,
        }
    }

    /// The number of turns, modulo 2^64.
    pub fn turns(&self) -> u64
        ensures turns { result ≡ self.now.turns }
    {
        self.turns
    }

    /// The number of entries.
    pub fn entries(&self) -> u64
        ensures entries { result ≡ self.now.entries }
    {
        self.entries
    }

    /// Counts a turn, and answers the number of turns, modulo 2^64.
    pub fn visit(&mut self) -> u64
        ensures answer { result ≡ self.new.turns }
        ensures turns { self.new.turns ≡ (self.old.turns + 1) % 2 ^ 64 }
        ensures entries { self.new.entries ≡ self.old.entries }
    {
        self.turns = self.turns.wrapping_add(1);
        self.turns
    }

    /// Counts a turn, and makes an entry, if there are fewer than 2^64 - 1.
    pub fn sign(&mut self)
        ensures turns { self.new.turns ≡ (self.old.turns + 1) % 2 ^ 64 }
        ensures entries { self.new.entries ≡ min (self.old.entries + 1) (2 ^ 64 - 1) }
    {
        self.visit();
        self.entries = self.entries.saturating_add(1);
    }
}
