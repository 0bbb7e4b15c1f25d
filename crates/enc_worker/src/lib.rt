//! The loop of a worker: claim an encoder run, run it, publish what it made.
//!
//! It rests on the traits of tick_core alone, so that one loop serves a Book, a worker's pass of a locked Book, or several
//! Books in turn.
//! It promises that the loop returns only once the end was seen, and how many results were taken by then. Nothing is said of
//! waiting: a loop in which the end never comes goes on.
#![tactic(auto)]

mod gate;
mod worker;

pub use gate::{Gate, NoGate, Point};
pub use worker::work;

#[cfg(test)]
mod tests;
