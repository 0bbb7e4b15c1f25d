//! The program `serve`: the words of its command line, the files of the system, a socket of UDP, the system's clock and the
//! standard error stream, handed to the call of `live_serve`.
//!
//! It promises the exit status of each end; what it reads, hears and sends is the trusted edge's.
#![tactic(auto)]

ghost use Rattle.std.specs.Prelude.{◌≡◌};
ghost use Rattle.serve_cli.specs.Exit.{exit_of};

use edge_io::{FileShelf, StdSink};
use live_serve::{ServeStatus, report, serve};
use program_edge::{WordsFault, command_line};
use std::process::ExitCode;
use udp_edge::{StdClock, UdpLink};

fn main(rt: HostRuntime) -> ExitCode {
    let alloc = rt.alloc();
    let mut err = StdSink::new(rt.stderr());
    let status = match command_line(&rt) {
        Ok(words) => serve(
            alloc,
            &words,
            &mut FileShelf::new(&rt),
            &mut UdpLink::new(&rt),
            &mut StdClock::new(&rt),
            &mut err,
        ),
        Err(WordsFault::Usage) => report(alloc, &mut err, ServeStatus::Usage),
        Err(WordsFault::Memory) => report(alloc, &mut err, ServeStatus::Memory),
    };
    ExitCode::from(exit_code(status))
}

/// The exit status of the program.
fn exit_code(status: ServeStatus) -> u8
    ensures { result ≡ exit_of status }
{
    match status {
        ServeStatus::Done => 0,
        ServeStatus::Usage => 2,
        ServeStatus::RosterFault { .. } => 3,
        ServeStatus::RosterLong => 4,
        ServeStatus::ReadFault => 6,
        ServeStatus::WriteFault => 7,
        ServeStatus::Memory => 8,
        ServeStatus::PeerFault { .. } => 10,
        ServeStatus::PeerMissing { .. } => 11,
        ServeStatus::LinkFault => 12,
        ServeStatus::PeersLong => 13,
    }
}
