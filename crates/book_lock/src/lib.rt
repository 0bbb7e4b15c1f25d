//! A ticket lock whose value lies in a box that is taken out of its slot for each turn and put back, and of which every pass
//! knows the history.
//!
//! It stands on `atomic_table` for the words, the slot and the seats, and on `edge_io` for `Memory`. It is generic in the
//! value, of which it knows what [`Turned`] says: for which list of entries it stands.
//! It promises that a turn calls its function once, on a value that stands for a list which goes on from what the pass had
//! seen; what the pass has seen, found and left afterwards; and that a closed lock gives back a value which stands for what
//! the desk's pass had seen. Nothing is said of waiting: a turn owes no return.
#![tactic(auto)]

mod lock;
mod plays;
mod steps;
mod turned;
mod view;

pub use lock::{BookLock, Pass};
pub use turned::Turned;
pub use view::{LastTurn, Standing, View};

#[cfg(test)]
mod tests;
