//! Who is heard in a tick, and what each listener hears.
//!
//! It stands on `g726_bits` for `Frame`.
//! It promises that `choose` gives the at most three loudest voices of a tick, by rising member, and that `mix` is the
//! sum of all voices but the listener's own, limited once.
#![tactic(auto)]

mod blend;
mod choice;
mod ticks;

pub use blend::mix;
pub use choice::{choose, loudness};
pub use ticks::Tick;

#[cfg(test)]
mod tests;
