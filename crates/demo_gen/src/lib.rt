//! The demo session of a number: a roster of twelve members that talk and listen, and a capture of their packets over
//! thirty seconds.
//!
//! It stands on `rtp_head` and `rtp_dump` for heads and records, and on `edge_io` for lists of octets.
//! It promises the octets of both files: those of the definitions in `specs/`, which say who is present and talks in
//! which tick, and what the draws of a generator are that starts with the number.
#![tactic(auto)]

ghost use Rattle.std.specs.Prelude.{◌≡◌, ◌≤◌, IfOk};
ghost use Rattle.demo_gen.specs.Roster.{roster};
ghost use Rattle.demo_gen.specs.Capture.{capture};

mod draws;
pub mod files;
mod laws;
mod packets;
mod turns;

use edge_io::{CalmSink, Memory, Octets};
use files::{ROSTER, Session};
pub use laws::{capture_is_whole, roster_is_lawful};
use packets::write_capture;
use std::alloc::Global;

/// The demo session of a number of 1 to 9,999.
///
/// It has 1,500 ticks. The roster is the same for every number; the number is what the speech is drawn from.
pub fn session(alloc: Global, number: u32) -> Result<Session, Memory>
    requires { (1 ≤ number) × (number ≤ 9999) }
    ensures roster { IfOk result (λ session. session.roster ≡ roster) }
    ensures dump { IfOk result (λ session. session.dump ≡ capture number) }
{
    let mut sink = CalmSink::new(alloc);
    write_capture(alloc, number, &mut sink)?;
    Ok(Session {
        roster: Octets::of(Vec::from_slice(alloc, ROSTER)?),
        dump: Octets::of(Vec::from_slice(alloc, sink.as_slice())?),
    })
}

#[cfg(test)]
mod tests;
