//! The program `rooms`: the words of its command line, the files of the system and the error stream, handed to the call of `rooms_run`.
//!
//! It promises the exit status of each end; what it reads and writes is the trusted edge's.
#![tactic(auto)]

ghost use Rattle.std.specs.Prelude.{◌≡◌};
ghost use Rattle.rooms_cli.specs.Exit.{exit_of};

use edge_io::{FileShelf, Sink, StdSink, Words};
use enc_worker::NoGate;
use program_edge::command_line;
use room_pool::FileOuts;
use rooms_run::{RoomsStatus, report, rooms};
use std::alloc::Global;
use std::process::ExitCode;
use std::rt::Files;
use std::sync::Wait;
use std::thread::Threads;

fn main(rt: HostRuntime) -> ExitCode {
    let alloc = rt.alloc();
    let mut err = StdSink::new(rt.stderr());
    let status = match command_line(&rt) {
        Ok(words) => run(alloc, &rt, &words, &mut err),
        Err(fault) => report(alloc, &mut err, RoomsStatus::from(fault)),
    };
    ExitCode::from(exit_code(status))
}

/// Runs the rooms of the list that the words name, over the files of the system.
fn run<R: Files + Threads + Wait + Sync, E: Sink>(
    alloc: Global,
    rt: &R,
    words: &Words,
    err: &mut E,
) -> RoomsStatus {
    let mut shelf = FileShelf::new(rt);
    let mut outs = FileOuts::new(rt);
    rooms(rt, alloc, words, &mut shelf, &mut outs, err, &NoGate)
}

/// The exit status of the program.
fn exit_code(status: RoomsStatus) -> u8
    ensures { result ≡ exit_of status }
{
    match status {
        RoomsStatus::Done => 0,
        RoomsStatus::Usage => 2,
        RoomsStatus::ReadFault => 6,
        RoomsStatus::WriteFault => 7,
        RoomsStatus::Memory => 8,
        RoomsStatus::ListFault { .. } => 14,
        RoomsStatus::ListLong => 15,
    }
}
