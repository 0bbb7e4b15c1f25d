//! Where a caller may look in while desk and workers run.

/// A place that a session with workers has come to.
#[derive(Clone, Copy, PartialEq, Eq, Debug)]
pub enum Point {
    /// The job of this number was claimed, and isn't run yet.
    Claimed(u64),
    /// The job of this number was run, and its result was handed in.
    Published(u64),
    /// The listener of this number has joined.
    Joined(u32),
}

/// What is called at each point, by whichever thread has come there. A call may take its time: whoever called waits for it.
///
/// Nothing is asked of a gate, and what a session writes doesn't depend on it.
pub trait Gate: Sync {
    fn at(&self, point: Point);
}

/// Lets everything pass at once.
pub struct NoGate;

impl Gate for NoGate {
    fn at(&self, _: Point) {}
}
