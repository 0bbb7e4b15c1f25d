//! What time it is.
ghost use Rattle.std.specs.Prelude.{ℕ, List, Option};
ghost use Rattle.udp_edge.specs.Time.{Answers};

/// A clock in milliseconds, from any start.
pub trait Clock {
    // The answers that are still to come, where the clock tells them. The last of them is repeated.
    ghost answers: { Self → Option (List ℕ) };

    /// The time in milliseconds.
    fn now(&mut self) -> u64
        ensures { Answers (answers self.old) (answers self.new) result };
}
