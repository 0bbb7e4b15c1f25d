//! Where datagrams come from and go to.
ghost use Rattle.std.specs.Prelude.{Bool, true, is_ok, is_err, ◌≡◌, ◌≤◌, ℕ, Option, length, IfOk, IfSome};
ghost use Rattle.edge_io.specs.Answers.{put_failed};
ghost use Rattle.edge_io.specs.Told.{Counts};
ghost use Rattle.udp_edge.specs.Traffic.{Traffic, Opens, Receives, Sends};

use crate::peer::{Got, Peer};
use edge_io::{Failed, PutFault};
use std::alloc::Global;

/// An end of the network at a port of its own.
pub trait Link {
    // Whether it is open.
    ghost is_open: { Self → Bool };

    // What comes, what was tried and the port, where the link tells them.
    ghost traffic: { Self → Option Traffic };

    // How many calls have failed so far. The count never falls, and stops at 2^64 - 1.
    ghost faults: { Self → ℕ };

    /// Opens the link at a port, for datagrams to any of the machine's addresses.
    ///
    /// # Errors
    ///
    /// `Failed` where the call failed. Then the link isn't open.
    fn open(&mut self, port: u16) -> Result<(), Failed>
        ensures opened { is_open self.new ≡ is_ok result }
        ensures traffic { Opens (traffic self.old) (traffic self.new) port }
        ensures counts { Counts (faults self.old) (is_err result) (faults self.new) };

    /// Takes the next datagram that has come, if there is one: its octets, or as many of them as `buf` has, to the front of
    /// `buf`.
    ///
    /// # Errors
    ///
    /// `Failed` where the call failed. Then no datagram was taken.
    fn recv(&mut self, buf: &mut [u8]) -> Result<Option<Got>, Failed>
        requires open { is_open self.old ≡ true }
        ensures len { IfOk result (λ taken. IfSome taken (λ got. got.len ≤ length buf.old)) }
        ensures traffic { Receives (traffic self.old) (traffic self.new) result (length buf.old) buf.new }
        ensures opened { is_open self.new ≡ is_open self.old }
        ensures counts { Counts (faults self.old) (is_err result) (faults self.new) };

    /// Sends a datagram. That it went doesn't say that it arrives. `alloc` serves a link that keeps what was tried.
    ///
    /// # Errors
    ///
    /// `Failed` where the call failed, and the datagram was tried and didn't go; `Memory` where there was no memory, and
    /// nothing was tried.
    fn send(&mut self, alloc: Global, to: Peer, octets: &[u8]) -> Result<(), PutFault>
        requires open { is_open self.old ≡ true }
        ensures traffic { Sends (traffic self.old) (traffic self.new) to octets.now result }
        ensures opened { is_open self.new ≡ is_open self.old }
        ensures counts { Counts (faults self.old) (put_failed result) (faults self.new) };
}
