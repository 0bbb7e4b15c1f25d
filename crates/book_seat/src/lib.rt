//! Passes of a Book under a lock: the desk's side and the workers' side of one conference, each call one turn.
//!
//! It rests on `book_lock` (the lock) and on tick_core (the Book, and the traits of both sides).
//! It promises that each call is one turn, in which the core takes the step of the call's name from what the turn found to
//! what it left; that the desk's pass has seen just its own entries; and that a worker's pass leaves the feed as it was.
//! Nothing is said of waiting: a turn owes no return.
#![tactic(auto)]

mod desk_calls;
mod desk_pass;
mod in_turn;
mod names;
mod worker_pass;

pub use desk_pass::DeskPass;
pub use names::{DeskPost, LockName};
pub use worker_pass::WorkerPass;

#[cfg(test)]
mod tests;
