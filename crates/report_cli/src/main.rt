//! The program `report`: the words of its command line, the files of the system and three standard streams, handed to the call of
//! `session_report`.
//!
//! It promises the exit status of each end; what it reads and writes is the trusted edge's.
#![tactic(auto)]

ghost use Rattle.std.specs.Prelude.{◌≡◌};
ghost use Rattle.report_cli.specs.Exit.{exit_of};

use edge_io::{FileShelf, Memory, Sink, StdSink, StdSource, Words};
use program_edge::command_line;
use session_report::{ReportStatus, report, tell};
use std::alloc::Global;
use std::io::{Read, Write};
use std::process::ExitCode;
use std::rt::Files;

fn main(rt: HostRuntime) -> ExitCode {
    let alloc = rt.alloc();
    let mut err = StdSink::new(rt.stderr());
    let status = match command_line(&rt) {
        Ok(words) => run(alloc, &rt, &words, rt.stdin(), rt.stdout(), &mut err),
        Err(fault) => tell(alloc, &mut err, ReportStatus::from(fault)),
    };
    ExitCode::from(exit_code(status))
}

/// Reports on the session of the words, over the capture that comes from `input`, and writes the report to `output`.
fn run<R: Files, I: Read + Drop, O: Write + Drop, E: Sink>(
    alloc: Global,
    files: &R,
    words: &Words,
    input: I,
    output: O,
    err: &mut E,
) -> ReportStatus {
    let mut out = StdSink::new(output);
    let mut dump = match StdSource::new(alloc, input) {
        Ok(dump) => dump,
        Err(Memory) => return tell(alloc, err, ReportStatus::Memory),
    };
    let mut shelf = FileShelf::new(files);
    report(alloc, words, &mut shelf, &mut dump, &mut out, err)
}

/// The exit status of the program.
fn exit_code(status: ReportStatus) -> u8
    ensures { result ≡ exit_of status }
{
    match status {
        ReportStatus::Done => 0,
        ReportStatus::Usage => 2,
        ReportStatus::RosterFault { .. } => 3,
        ReportStatus::RosterLong => 4,
        ReportStatus::DumpFault { .. } => 5,
        ReportStatus::ReadFault => 6,
        ReportStatus::WriteFault => 7,
        ReportStatus::Memory => 8,
    }
}
