//! RTCP reports: `write` makes the compound packet that a sender of RTP owes its listener, `check` counts the
//! packets of one that arrives.
//!
//! The packets are those of RFC 3550, sections 6.4 to 6.6. Neither call takes memory. It rests on `byteorder` for
//! numbers in network order, and on `itoa` and `arrayvec` for the name that a report carries.
//!
//! `check` answers what `specs/Compound.antt` says of the octets: how many packets they are, or the first fault of
//! the first packet that has one. `write` makes the octets of `specs/Reports.antt`, which `check` takes.
#![tactic(auto)]

mod chunks;
mod compound;
mod packet;
mod report;

pub use compound::{RtcpFault, check};
pub use report::{Report, write};

#[cfg(test)]
mod tests;
