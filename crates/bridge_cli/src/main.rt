//! The program `bridge`: the words of its command line, the files of the system and the three
//! standard streams, handed to the calls of `bridge_calls`.
//!
//! It promises which call the words are for, and the exit status of each end; what it reads and writes is the trusted edge's.
#![tactic(auto)]

ghost use Rattle.std.specs.Prelude.{◌≡◌};
ghost use Rattle.bridge_cli.specs.Exit.{exit_of};
ghost use Rattle.bridge_cli.specs.Form.{asks_demo, asks_shared};

use bridge_calls::{Status, alone, demo, report, shared};
use edge_io::{FileShelf, Memory, Sink, StdSink, StdSource, Words};
use enc_worker::NoGate;
use program_edge::command_line;
use std::alloc::Global;
use std::io::{Read, Write};
use std::process::ExitCode;
use std::rt::Files;
use std::sync::Wait;
use std::thread::Threads;
use tick_core::Book;

fn main(rt: HostRuntime) -> ExitCode {
    let alloc = rt.alloc();
    let mut err = StdSink::new(rt.stderr());
    let status = match command_line(&rt) {
        Ok(words) => run(alloc, &rt, &words, rt.stdin(), rt.stdout(), &mut err),
        Err(fault) => report(alloc, &mut err, Status::from(fault)),
    };
    ExitCode::from(exit_code(status))
}

/// Runs the call of the words: `demo` or `shared` where that is the first, and else `alone`. The capture comes from `input`, and what
/// they write goes to `output`.
fn run<R: Files + Threads + Wait + Sync, I: Read + Drop, O: Write + Drop, E: Sink>(
    alloc: Global,
    rt: &R,
    words: &Words,
    input: I,
    output: O,
    err: &mut E,
) -> Status {
    let mut out = StdSink::new(output);
    if is_demo(words) {
        return demo(alloc, words, &mut out, err);
    }
    let mut dump = match StdSource::new(alloc, input) {
        Ok(dump) => dump,
        Err(Memory) => return report(alloc, err, Status::Memory),
    };
    let mut shelf = FileShelf::new(rt);
    let mut book = Book::new(alloc);
    if is_shared(words) {
        shared(
            rt, alloc, words, &mut book, &mut shelf, &mut dump, &mut out, err, &NoGate,
        )
    } else {
        alone(
            alloc, words, &mut book, &mut shelf, &mut dump, &mut out, err,
        )
    }
}

/// Whether the first word is `demo`.
fn is_demo(words: &Words) -> bool
    ensures { result ≡ asks_demo words.now }
{
    words.len() > 0 && words.word(0) == "demo"
}

/// Whether the first word is `shared`.
fn is_shared(words: &Words) -> bool
    ensures { result ≡ asks_shared words.now }
{
    words.len() > 0 && words.word(0) == "shared"
}

/// The exit status of the program.
fn exit_code(status: Status) -> u8
    ensures { result ≡ exit_of status }
{
    match status {
        Status::Done => 0,
        Status::Usage => 2,
        Status::RosterFault { .. } => 3,
        Status::RosterLong => 4,
        Status::DumpFault { .. } => 5,
        Status::ReadFault => 6,
        Status::WriteFault => 7,
        Status::Memory => 8,
    }
}
