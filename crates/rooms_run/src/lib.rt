//! Sessions of many rooms at once, over one pool of workers.
//!
//! Rests on `room_pool` for the list, the outputs and the workers' turns, on `desk_shared` for the two sides of a session beside workers,
//! on `book_lock` and `book_seat` for a Book under a lock for each room, and on `edge_io` for its ends. It promises of [`rooms`] that
//! each room ends as if it were alone: how, and what its output then holds more. Nothing is said of waiting: a call owes no return.
#![tactic(auto)]

mod calls;
mod closing;
mod ends;
mod opening;
mod putting;
mod room;
mod running;
mod seating;
mod start;
mod status;
mod taking;
mod telling;
mod together;

pub use calls::{report, rooms};
pub use ends::RoomEnd;
pub use status::RoomsStatus;
