//! The network's edge: datagrams in, datagrams out, and the time.
//!
//! Rests on `edge_io` for octets, failures and plans of failures, and on `roster_text` for how a text is parted. Code above is
//! generic over [`Link`] and [`Clock`], and is proved once for all of their ends. A link gives the datagrams that come in
//! order and once each, sends what it is given, and does nothing else; a call answers that it failed only where its count of
//! failures rose. [`read_peers`] reads who is sent packets where, as its grammar says.
#![tactic(auto)]

mod address;
mod clocks;
mod links;
mod listed;
mod memory;
mod peer;
mod peers;
mod real;
mod turns;

pub use clocks::Clock;
pub use links::Link;
pub use memory::{MemClock, MemLink};
pub use peer::{Got, Peer};
pub use peers::{PeerKind, Peers, PeersError, read_peers};
pub use real::{StdClock, UdpLink};
pub use turns::{Tried, Turn};

#[cfg(test)]
mod tests;
