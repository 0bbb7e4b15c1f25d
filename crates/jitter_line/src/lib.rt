//! The jitter buffer of one talker: its packets are placed by their RTP timestamps, and a frame is played out each 20 ms.
//!
//! It stands on `g726_bits` for `Frame`, on `circular_buffer` for the ring, and on `edge_io` for `Memory`.
//! It promises what is said at a tick by the history of what was put and pulled: the first sample that came for a
//! place, and 0 where none came in time.
#![tactic(auto)]

mod laws;
mod line;
mod place;
mod places;

pub use laws::{
    order_of_packets, overlap_and_gap, repeated_packet, restart_at_the_25th, window_edges,
};
pub use line::{Line, Put};

#[cfg(test)]
mod tests;
