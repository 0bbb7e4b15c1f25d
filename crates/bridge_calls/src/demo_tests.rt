//! Calls of `demo` over ends in memory.
use crate::{Status, demo};
use edge_io::{MemSink, Octets, Words};
use std::alloc::{AllocError, Global};
use std::process::Abort;
use std::test::Fail;

const USAGE: &str = "usage: bridge alone ROSTER or bridge shared N ROSTER or bridge demo NUMBER\n";

/// What a call is given, the calls of the output and the error stream that are to fail, and what comes of it.
#[derive(Clone, Copy)]
struct Row<'a> {
    shows: &'a str,
    words: &'a [&'a str],
    fail: [&'a [u8]; 2],
    status: Status,
    out: &'a str,
    err: &'a str,
}

/// Words of no form.
const REFUSED: Row<'static> = Row {
    shows: "words of no form",
    words: &[],
    fail: [&[], &[]],
    status: Status::Usage,
    out: "",
    err: USAGE,
};

fn failing(alloc: Global, calls: &[u8]) -> Result<MemSink, AllocError> {
    Ok(MemSink::new(alloc, Octets::of(Vec::from_slice(alloc, calls)?)))
}

fn check(rt: &impl Abort, alloc: Global, row: &Row<'_>) -> Result<(), AllocError> {
    let mut words = Words::new(alloc);
    for word in row.words {
        assert!(rt; words.push(alloc, word).is_ok(), "memory");
    }
    let [out, err] = row.fail;
    let mut out = failing(alloc, out)?;
    let mut err = failing(alloc, err)?;
    let status = demo(alloc, &words, &mut out, &mut err);
    let shows = row.shows;
    assert_eq!(rt; status, row.status, "{shows}");
    assert!(rt; out.as_slice() == row.out.as_bytes(), "the output: {shows}");
    assert!(rt;
        err.as_slice() == row.err.as_bytes(),
        "the error stream: {shows}"
    );
    Ok(())
}

fn is_usage(rt: &impl Abort, alloc: Global, words: &[&str]) -> Result<(), AllocError> {
    let row = Row { words, ..REFUSED };
    check(rt, alloc, &row)
}

#[test]
fn words_of_no_form(rt: HostRuntime) -> Result<(), Fail> {
    let alloc = rt.alloc();
    is_usage(&rt, alloc, &[])?;
    is_usage(&rt, alloc, &["demo"])?;
    is_usage(&rt, alloc, &["demo", ""])?;
    is_usage(&rt, alloc, &["demo", "0"])?;
    is_usage(&rt, alloc, &["demo", "04"])?;
    is_usage(&rt, alloc, &["demo", "10000"])?;
    is_usage(&rt, alloc, &["demo", "4294967297"])?;
    is_usage(&rt, alloc, &["demo", "-1"])?;
    is_usage(&rt, alloc, &["demo", "+1"])?;
    is_usage(&rt, alloc, &["demo", "1x"])?;
    is_usage(&rt, alloc, &["demo", "1", "2"])?;
    is_usage(&rt, alloc, &["Demo", "1"])?;
    let row = Row {
        shows: "an error stream that fails",
        fail: [&[], &[0]],
        err: "",
        ..REFUSED
    };
    check(&rt, alloc, &row)?;
    Ok(())
}

#[test]
fn sessions(rt: HostRuntime) -> Result<(), Fail> {
    let alloc = rt.alloc();
    let rows = [
        Row {
            shows: "the first session",
            words: &["demo", "1"],
            status: Status::Done,
            out: "ticks 1500 runs 15272 packets 15500 refused 0\n",
            err: "",
            ..REFUSED
        },
        Row {
            shows: "an output that fails",
            words: &["demo", "1"],
            fail: [&[0], &[]],
            status: Status::WriteFault,
            err: "write failed\n",
            ..REFUSED
        },
    ];
    for row in &rows {
        check(&rt, alloc, row)?;
    }
    Ok(())
}
