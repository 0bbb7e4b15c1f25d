//! A session beside its workers: the desk runs tick by tick, while workers encode outside the lock.
//!
//! It rests on `desk_run` for the session (one loop for both kinds of run), on `book_seat` for the passes of a Book behind a lock,
//! on `enc_worker` for the workers' loop, and on the runtime's threads.
//! It promises of [`run_shared`] what is promised of a run on one thread, word for word, for any number of workers and any gate;
//! the Book's feed is the session's but for where its collects stand. The desk's side of such a run, [`run_and_end`] over a [`Waiting`]
//! desk, and the workers' side, [`run_pool`], may be run apart, for many desks beside one pool. Nothing is said of waiting: a run owes
//! no return.
#![tactic(auto)]

mod helper;
mod pool;
mod session;
mod shared;
mod waiting;

pub use helper::{Help, Helper};
pub use pool::run_pool;
pub use session::{Closing, run_and_end};
pub use shared::run_shared;
pub use waiting::Waiting;
