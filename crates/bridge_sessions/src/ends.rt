//! Ends in memory for a call, and a source that gives few octets at a time.

use bridge_calls::{Status, alone, shared};
use edge_io::{CalmSource, Failed, MemShelf, MemSink, Octets, Source, Words};
use enc_worker::{Gate, NoGate};
use std::alloc::{AllocError, Global};
use std::sync::Wait;
use std::test::Fail;
use std::thread::Threads;
use tick_core::Book;

/// The forms of a command line by which a session is run: alone, beside one worker and beside three.
pub(crate) const FORMS: [&[&str]; 3] = [
    &["alone", "r"],
    &["shared", "1", "r"],
    &["shared", "3", "r"],
];

/// What a call is given beside its capture: the words, the one file `r` of its shelf, and by number the calls of the shelf, the
/// output and the error stream that are to fail.
#[derive(Clone, Copy)]
pub(crate) struct Call<'a> {
    pub(crate) words: &'a [&'a str],
    pub(crate) roster: &'a str,
    pub(crate) failing_takes: &'a [u8],
    pub(crate) failing_writes: &'a [u8],
    pub(crate) failing_lines: &'a [u8],
}

/// What comes of a call.
#[derive(Drop)]
pub(crate) struct Ran {
    pub(crate) status: Status,
    pub(crate) out: MemSink,
    pub(crate) err: MemSink,
}

/// The words that name the roster, and ends of which no call fails.
pub(crate) fn calm_call(roster: &str) -> Call<'_> {
    Call {
        words: &["alone", "r"],
        roster,
        failing_takes: &[],
        failing_writes: &[],
        failing_lines: &[],
    }
}

/// A list of octets.
pub(crate) fn octets(alloc: Global, items: &[u8]) -> Result<Octets, AllocError> {
    Ok(Octets::of(Vec::from_slice(alloc, items)?))
}

/// Runs a call over a capture: `shared` where that is the first word, and else `alone`.
pub(crate) fn run<R: Threads + Wait + Sync, S: Source>(
    rt: &R,
    alloc: Global,
    call: Call<'_>,
    dump: &mut S,
) -> Result<Ran, Fail> {
    run_gated(rt, alloc, call, dump, &NoGate)
}

/// The same past a gate.
pub(crate) fn run_gated<R: Threads + Wait + Sync, S: Source, G: Gate>(
    rt: &R,
    alloc: Global,
    call: Call<'_>,
    dump: &mut S,
    gate: &G,
) -> Result<Ran, Fail> {
    let mut words = Words::new(alloc);
    for word in call.words {
        words.push(alloc, word)?;
    }
    let mut shelf = MemShelf::new(
        alloc,
        octets(alloc, b"r")?,
        octets(alloc, call.roster.as_bytes())?,
        octets(alloc, call.failing_takes)?,
    );
    let mut out = MemSink::new(alloc, octets(alloc, call.failing_writes)?);
    let mut err = MemSink::new(alloc, octets(alloc, call.failing_lines)?);
    let mut book = Book::new(alloc);
    let status = if call.words.first() == Some(&"shared") {
        shared(
            rt, alloc, &words, &mut book, &mut shelf, dump, &mut out, &mut err, gate,
        )
    } else {
        alone(
            alloc, &words, &mut book, &mut shelf, dump, &mut out, &mut err,
        )
    };
    Ok(Ran { status, out, err })
}

/// A source that gives at most so many octets a call. It doesn't tell what is left.
#[derive(Drop)]
pub(crate) struct Slow {
    pub(crate) source: CalmSource,
    pub(crate) most: usize,
}

impl Source for Slow {
    ghost use Rattle.std.specs.Prelude.{None};

    ghost rest = { λ _. None };

    ghost faults = { λ _. 0 };

    fn read(&mut self, buf: &mut [u8]) -> Result<usize, Failed> {
        let len = buf.len().min(self.most);
        self.source.read(&mut buf[..len])
    }
}
