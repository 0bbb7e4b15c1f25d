//! The Book: a conference's core at work, in which listeners of equal rate, state and mix share one encoder run.
//!
//! It rests on book_lists (what its lists stand for), book_feed (the kept feed), triple_table (the runs of a tick) and
//! g726_codec (an encoder run).
//! It promises that each call is the core machine's step of its name, and that a tick's packets are those that an encoder
//! of each listener's own would send. A cut forgets what was collected: a Book stands for each feed that has its base up to
//! the last cut and its entries since.
#![tactic(auto)]

mod book;
mod calls;
mod faults;
mod jobs;
mod mails;
mod mixes;
mod open;
mod packets;
mod queue;
mod seating;
mod sweep;
mod under_lock;

pub use book::{BACKLOG_MOST, Book, KEPT_MOST, LISTENERS_MOST, TICKS_MOST};
pub use calls::{DeskCalls, Turns};
pub use conference_spec::{Entry, JoinSpec, Packet};
pub use faults::{Absent, CloseFault, JoinFault, NotYet};
pub use jobs::{Claim, Done, Job};
pub use packets::Packets;
pub use under_lock::CoreState;

#[cfg(test)]
mod tests;
