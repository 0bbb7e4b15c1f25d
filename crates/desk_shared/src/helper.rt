//! What helps a desk along while it waits for its workers.
ghost use Rattle.std.specs.Prelude.{◌≡◌, List};

use enc_worker::{Gate, Point};
use tick_core::{Claim, Turns};

/// Who helps a desk along: it is told who joined, and makes runs as a worker does.
pub trait Help {
    /// What guards the conference whose runs it makes.
    type Lock;

    // It may be asked.
    ghost ready: { Self → Type 0 };

    ghost home: { Self → List Self.Lock };

    /// Is told that this member has joined.
    fn joined(&self, member: u32);

    /// Makes the waiting run of the least number, and says whether there was one.
    fn make_run(&mut self) -> bool
        requires ready { ready self.old }
        ensures ready { ready self.new }
        ensures home { home self.new ≡ home self.old };
}

/// A pass of a worker, with the gate that is told of what it does.
#[derive(Drop)]
pub struct Helper<'a, G: Gate, T: Turns> {
    pub gate: &'a G,
    pub turns: T,
}

impl<'a, G: Gate, T: Turns> Help for Helper<'a, G, T> {
    type Lock = T::Lock;

    ghost ready = { λ h. T.ready h.turns };

    ghost home = { λ h. T.home h.turns };

    fn joined(&self, member: u32) {
        self.gate.at(Point::Joined(member));
    }

    fn make_run(&mut self) -> bool {
        match self.turns.claim() {
            Claim::Job(job) => {
                let number = job.number();
                self.gate.at(Point::Claimed(number));
                let _back = self.turns.publish(job.run());
                self.gate.at(Point::Published(number));
                true
            }
            Claim::Idle => false,
            Claim::Over => false,
        }
    }
}
