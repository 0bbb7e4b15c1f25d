//! A link in a live session: a tick's time of listening, and what is posted.
//!
//! Rests on `udp_edge` for links and clocks, on `live_spec` for what is heard when and what is sent to whom, on `rtcp_pack` for
//! packets of RTCP, on `live_tally` for the listeners' tallies, and on a desk that it is generic over.
//! It promises that a tick hears just the datagrams of its rounds, in their order and once each, and that each letter is tried
//! once, in order: one that doesn't go is counted, and ends nothing.
#![tactic(auto)]

mod controls;
mod listening;
mod posting;
mod posts;

pub use controls::Controls;
pub use listening::{BUFFER_LEN, listen};
pub use posting::{post_packets, post_reports, post_rest};
