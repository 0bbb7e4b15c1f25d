//! The program `audit`: the words of its command line, the files of the system and two standard streams, handed to the call of
//! `audit_check`.
//!
//! It promises the exit status of each end; what it reads and writes is the trusted edge's.
#![tactic(auto)]

ghost use Rattle.std.specs.Prelude.{◌≡◌};
ghost use Rattle.audit_cli.specs.Exit.{exit_of};

use audit_check::{AuditStatus, audit, report};
use edge_io::{FileShelf, Memory, Sink, StdSink, StdSource, Words};
use program_edge::command_line;
use std::alloc::Global;
use std::io::Read;
use std::process::ExitCode;
use std::rt::Files;

fn main(rt: HostRuntime) -> ExitCode {
    let alloc = rt.alloc();
    let mut out = StdSink::new(rt.stdout());
    let status = match command_line(&rt) {
        Ok(words) => run(alloc, &rt, &words, rt.stdin(), &mut out),
        Err(fault) => report(alloc, &mut out, AuditStatus::from(fault)),
    };
    ExitCode::from(exit_code(status))
}

/// Audits the octets that the words name, over the capture that comes from `input`, and writes the verdict to `out`.
fn run<R: Files, I: Read + Drop, K: Sink>(
    alloc: Global,
    files: &R,
    words: &Words,
    input: I,
    out: &mut K,
) -> AuditStatus {
    let mut dump = match StdSource::new(alloc, input) {
        Ok(dump) => dump,
        Err(Memory) => return report(alloc, out, AuditStatus::Memory),
    };
    let mut shelf = FileShelf::new(files);
    audit(alloc, words, &mut shelf, &mut dump, out)
}

/// The exit status of the program.
fn exit_code(status: AuditStatus) -> u8
    ensures { result ≡ exit_of status }
{
    match status {
        AuditStatus::Yes => 0,
        AuditStatus::Usage => 2,
        AuditStatus::RosterFault { .. } => 3,
        AuditStatus::RosterLong => 4,
        AuditStatus::DumpFault { .. } => 5,
        AuditStatus::ReadFault => 6,
        AuditStatus::WriteFault => 7,
        AuditStatus::Memory => 8,
        AuditStatus::No { .. } => 16,
        AuditStatus::OutLong => 17,
    }
}
