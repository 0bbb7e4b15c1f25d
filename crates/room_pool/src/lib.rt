//! What the rooms of a list share: the list, outputs by name, and workers that are asked room after room.
//!
//! Rests on `edge_io` for its ends, on `roster_text` for how a text is parted into lines and words, and on `book_seat` for workers' passes.
//! It promises which lines a list of rooms may have, exactly, that what is put to an output is added to it alone, and that a worker
//! asks each room at most once in a claim, in turn, and says over only where every room is.
#![tactic(auto)]

mod asking;
mod filled;
mod listing;
mod mem_outs;
mod names;
mod outs;
mod real;
mod turns;

pub use listing::{ListError, MAX_LIST_LEN, MAX_ROOMS, RoomList, read_list};
pub use mem_outs::MemOuts;
pub use names::RoomNames;
pub use outs::Outs;
pub use real::FileOuts;
pub use turns::RoomTurns;
