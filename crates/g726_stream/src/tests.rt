//! `run` over ends in memory: what it is given, what comes out, and which of its calls fail.
use crate::{Status, run};
use edge_io::{MemSink, MemSource, Octets, Words};
use std::alloc::{AllocError, Global};
use std::process::Abort;
use std::test::Fail;

const USAGE: &str = "usage: g726 encode RATE or g726 decode RATE\n";

/// What a call is given; the calls of the input, the output and the error stream that are to fail; what comes of it.
#[derive(Clone, Copy)]
struct Row<'a> {
    shows: &'a str,
    words: &'a [&'a str],
    input: &'a [u8],
    fail: [&'a [u8]; 3],
    status: Status,
    out: &'a [u8],
    err: &'a str,
}

/// A frame of silence at 32 kbit/s.
const SILENCE: Row<'static> = Row {
    shows: "a frame of silence",
    words: &["encode", "32"],
    input: &[0; 320],
    fail: [&[], &[], &[]],
    status: Status::Done,
    out: &[255; 80],
    err: "",
};

fn octets(alloc: Global, items: &[u8]) -> Result<Octets, AllocError> {
    Ok(Octets::of(Vec::from_slice(alloc, items)?))
}

fn check(rt: &impl Abort, alloc: Global, row: &Row<'_>) -> Result<(), AllocError> {
    let mut words = Words::new(alloc);
    for word in row.words {
        assert!(rt; words.push(alloc, word).is_ok(), "memory");
    }
    let [input, out, err] = row.fail;
    let mut input = MemSource::new(octets(alloc, row.input)?, octets(alloc, input)?);
    let mut out = MemSink::new(alloc, octets(alloc, out)?);
    let mut err = MemSink::new(alloc, octets(alloc, err)?);
    let status = run(alloc, &words, &mut input, &mut out, &mut err);
    let shows = row.shows;
    assert_eq!(rt; status, row.status, "{shows}");
    assert!(rt; out.as_slice() == row.out, "the output: {shows}");
    assert!(rt;
        err.as_slice() == row.err.as_bytes(),
        "the error stream: {shows}"
    );
    Ok(())
}

fn is_usage(rt: &impl Abort, alloc: Global, words: &[&str]) -> Result<(), AllocError> {
    let row = Row {
        shows: "words of no form",
        words,
        status: Status::Usage,
        out: b"",
        err: USAGE,
        ..SILENCE
    };
    check(rt, alloc, &row)
}

fn lines(rt: &impl Abort, alloc: Global) -> Result<(), AllocError> {
    is_usage(rt, alloc, &[])?;
    is_usage(rt, alloc, &["encode"])?;
    is_usage(rt, alloc, &["encode", "33"])?;
    is_usage(rt, alloc, &["encode", "016"])?;
    is_usage(rt, alloc, &["code", "32"])?;
    is_usage(rt, alloc, &["encode", "32", "x"])?;
    is_usage(rt, alloc, &["--help", "32"])?;
    is_usage(rt, alloc, &["-h"])?;
    let version = Row {
        shows: "the version",
        words: &["--version"],
        out: b"g726 0.1.0\n",
        ..SILENCE
    };
    check(rt, alloc, &version)
}

fn streams(rt: &impl Abort, alloc: Global) -> Result<(), AllocError> {
    check(rt, alloc, &SILENCE)?;
    let cases: [(&str, &[&str], &[u8], Status, &[u8], &str); 5] = [
        ("no input", &["encode", "16"], b"", Status::Done, b"", ""),
        (
            "one octet",
            &["encode", "40"],
            b"x",
            Status::OddOctet { at: 0 },
            b"",
            "samples at 0: odd octet\n",
        ),
        (
            "a short last frame of silence",
            &["encode", "32"],
            &[0; 3],
            Status::OddOctet { at: 2 },
            &[255; 80],
            "samples at 2: odd octet\n",
        ),
        ("no codes", &["decode", "24"], b"", Status::Done, b"", ""),
        (
            "codes that end inside a frame",
            &["decode", "32"],
            &[255; 81],
            Status::TornFrame { at: 80 },
            &[0; 320],
            "codes at 80: torn frame\n",
        ),
    ];
    for (shows, words, input, status, out, err) in cases {
        let row = Row {
            shows,
            words,
            input,
            status,
            out,
            err,
            ..SILENCE
        };
        check(rt, alloc, &row)?;
    }
    Ok(())
}

fn failures(rt: &impl Abort, alloc: Global) -> Result<(), AllocError> {
    let first: &[u8] = &[0];
    let none: &[u8] = &[];
    let cases: [([&[u8]; 3], Status, &[u8], &str); 3] = [
        ([first, none, none], Status::ReadFault, b"", "read failed\n"),
        (
            [none, first, none],
            Status::WriteFault,
            b"",
            "write failed\n",
        ),
        ([&[1], none, first], Status::ReadFault, &[255; 80], ""),
    ];
    for (fail, status, out, err) in cases {
        let row = Row {
            shows: "a call that fails",
            fail,
            status,
            out,
            err,
            ..SILENCE
        };
        check(rt, alloc, &row)?;
    }
    Ok(())
}

#[test]
fn usage_and_version_are_told(rt: HostRuntime) -> Result<(), Fail> {
    lines(&rt, rt.alloc())?;
    Ok(())
}

#[test]
fn streams_are_coded_up_to_where_they_are_torn(rt: HostRuntime) -> Result<(), Fail> {
    streams(&rt, rt.alloc())?;
    Ok(())
}

#[test]
fn a_read_or_a_write_that_fails_is_told(rt: HostRuntime) -> Result<(), Fail> {
    failures(&rt, rt.alloc())?;
    Ok(())
}
