//! The program `g726`: the words of its command line and the three standard streams, handed to the
//! call of `g726_stream`.
//!
//! It promises the exit status of each end; what it reads and writes is the trusted edge's.
#![tactic(auto)]

ghost use Rattle.std.specs.Prelude.{◌≡◌};
ghost use Rattle.g726_cli.specs.Exit.{exit_of};

use edge_io::{Memory, StdSink, StdSource};
use g726_stream::{Status, report, run};
use program_edge::command_line;
use std::process::ExitCode;

fn main(rt: HostRuntime) -> ExitCode {
    let alloc = rt.alloc();
    let mut err = StdSink::new(rt.stderr());
    let status = match command_line(&rt) {
        Ok(words) => match StdSource::new(alloc, rt.stdin()) {
            Ok(mut input) => run(
                alloc,
                &words,
                &mut input,
                &mut StdSink::new(rt.stdout()),
                &mut err,
            ),
            Err(Memory) => report(alloc, &mut err, Status::Memory),
        },
        Err(fault) => report(alloc, &mut err, Status::from(fault)),
    };
    ExitCode::from(exit_code(status))
}

/// The exit status of the program.
fn exit_code(status: Status) -> u8
    ensures { result ≡ exit_of status }
{
    match status {
        Status::Done => 0,
        Status::Usage => 2,
        Status::ReadFault => 6,
        Status::WriteFault => 7,
        Status::Memory => 8,
        Status::OddOctet { .. } => 20,
        Status::TornFrame { .. } => 21,
    }
}
