//! Calls of `alone` over ends in memory.
use crate::{Status, alone};
use edge_io::{MemShelf, MemSink, MemSource, Octets, Words};
use roster_text::RosterKind;
use rtp_dump::DumpKind;
use std::alloc::{AllocError, Global};
use std::process::Abort;
use std::test::Fail;
use tick_core::Book;

/// The answer's line and file head.
const HEAD: &[u8] = b"#!rtpplay1.0 0.0.0.0/0\n\0\0\0\0\0\0\0\0\0\0\0\0\0\0\0\0";

const SUMMARY: &str = "ticks 0 runs 0 packets 0 refused 0\n";

const USAGE: &str = "usage: bridge alone ROSTER or bridge shared N ROSTER or bridge demo NUMBER\n";

/// What a call is given, on a shelf whose one file is named `r`; the calls of the shelf, the
/// capture, the output and the error stream that are to fail; and what comes of it.
#[derive(Clone, Copy)]
struct Row<'a> {
    shows: &'a str,
    words: &'a [&'a str],
    roster: &'a [u8],
    capture: &'a [u8],
    fail: [&'a [u8]; 4],
    status: Status,
    out: &'a [u8],
    err: &'a str,
}

/// A session without ticks, as it should be.
const BARE: Row<'static> = Row {
    shows: "a roster without ticks",
    words: &["alone", "r"],
    roster: b"0 end\n",
    capture: HEAD,
    fail: [&[], &[], &[], &[]],
    status: Status::Done,
    out: HEAD,
    err: SUMMARY,
};

fn octets(alloc: Global, items: &[u8]) -> Result<Octets, AllocError> {
    Ok(Octets::of(Vec::from_slice(alloc, items)?))
}

fn check(rt: &impl Abort, alloc: Global, row: &Row<'_>) -> Result<(), AllocError> {
    let mut words = Words::new(alloc);
    for word in row.words {
        assert!(rt; words.push(alloc, word).is_ok(), "memory");
    }
    let [shelf, dump, out, err] = row.fail;
    let mut shelf = MemShelf::new(
        alloc,
        octets(alloc, b"r")?,
        octets(alloc, row.roster)?,
        octets(alloc, shelf)?,
    );
    let mut dump = MemSource::new(octets(alloc, row.capture)?, octets(alloc, dump)?);
    let mut out = MemSink::new(alloc, octets(alloc, out)?);
    let mut err = MemSink::new(alloc, octets(alloc, err)?);
    let mut book = Book::new(alloc);
    let status = alone(
        alloc, &words, &mut book, &mut shelf, &mut dump, &mut out, &mut err,
    );
    let shows = row.shows;
    assert_eq!(rt; status, row.status, "{shows}");
    assert!(rt; out.as_slice() == row.out, "the output: {shows}");
    assert!(rt;
        err.as_slice() == row.err.as_bytes(),
        "the error stream: {shows}"
    );
    Ok(())
}

fn is_usage(rt: &impl Abort, alloc: Global, words: &[&str]) -> Result<(), AllocError> {
    let row = Row {
        shows: "words of no form",
        words,
        status: Status::Usage,
        out: b"",
        err: USAGE,
        ..BARE
    };
    check(rt, alloc, &row)
}

fn usage(rt: &impl Abort, alloc: Global) -> Result<(), AllocError> {
    is_usage(rt, alloc, &[])?;
    is_usage(rt, alloc, &["alone"])?;
    is_usage(rt, alloc, &["alone", "r", "b"])?;
    is_usage(rt, alloc, &["alone", "-r"])?;
    is_usage(rt, alloc, &["alone", ""])?;
    is_usage(rt, alloc, &["shared", "2", "r"])?;
    is_usage(rt, alloc, &["demo", "1"])?;
    is_usage(rt, alloc, &["serv", "r"])
}

fn captures(rt: &impl Abort, alloc: Global) -> Result<(), AllocError> {
    let cases: [(&[u8], u64, DumpKind, &str); 3] = [
        (b"", 0, DumpKind::NotDump, "dump at 0: not a dump\n"),
        (
            b"#!rtpplay2.0",
            9,
            DumpKind::NotDump,
            "dump at 9: not a dump\n",
        ),
        (
            &HEAD[..30],
            23,
            DumpKind::TornHead,
            "dump at 23: torn head\n",
        ),
    ];
    for (capture, at, kind, err) in cases {
        let row = Row {
            shows: "a capture broken before its records",
            capture,
            status: Status::DumpFault { at, kind },
            out: b"",
            err,
            ..BARE
        };
        check(rt, alloc, &row)?;
    }
    Ok(())
}

/// The answer of a session of one tick, of silence, to one listener at 32 kbit/s.
const ONE_TICK: &[u8] = b"#!rtpplay1.0 0.0.0.0/0\n\0\0\0\0\0\0\0\0\0\0\0\0\0\0\0\0\
\x00\x64\x00\x5c\x00\x00\x00\x14\x80\xe0\0\0\0\0\0\0\0\0\0\x07\
\xff\xff\xff\xff\xff\xff\xff\xff\xff\xff\xff\xff\xff\xff\xff\xff\xff\xff\xff\xff\
\xff\xff\xff\xff\xff\xff\xff\xff\xff\xff\xff\xff\xff\xff\xff\xff\xff\xff\xff\xff\
\xff\xff\xff\xff\xff\xff\xff\xff\xff\xff\xff\xff\xff\xff\xff\xff\xff\xff\xff\xff\
\xff\xff\xff\xff\xff\xff\xff\xff\xff\xff\xff\xff\xff\xff\xff\xff\xff\xff\xff\xff";

fn sessions(rt: &impl Abort, alloc: Global) -> Result<(), AllocError> {
    let long = vec![in alloc; b'#'; 1_048_577]?;
    let rows = [
        Row {
            roster: b"0 end",
            ..BARE
        },
        Row {
            shows: "one tick of silence",
            roster: b"0 join 1 - 32 96 7 0 0\n20 end\n",
            out: ONE_TICK,
            err: "ticks 1 runs 1 packets 1 refused 0\n",
            ..BARE
        },
        Row {
            shows: "a roster that is too long",
            roster: long.as_slice(),
            status: Status::RosterLong,
            out: b"",
            err: "roster longer than 1048576 octets\n",
            ..BARE
        },
    ];
    for row in &rows {
        check(rt, alloc, row)?;
    }
    Ok(())
}

fn bad_lines(rt: &impl Abort, alloc: Global) -> Result<(), AllocError> {
    let cases: [(&[u8], u32, RosterKind, &str); 12] = [
        (
            b"0 jion 1\n",
            1,
            RosterKind::Words,
            "roster line 1: words\n",
        ),
        (b"x end\n", 1, RosterKind::Number, "roster line 1: number\n"),
        (
            b"0 join 1 - 33 96 7 0 0\n",
            1,
            RosterKind::Rate,
            "roster line 1: rate\n",
        ),
        (
            b"0 join 1 - 32 95 7 0 0\n",
            1,
            RosterKind::PayType,
            "roster line 1: payload type\n",
        ),
        (
            b"0 join 1 - 32 96 7 0 0 5\n",
            1,
            RosterKind::Bundle,
            "roster line 1: bundle\n",
        ),
        (
            b"0 leave 1\n",
            1,
            RosterKind::Absent,
            "roster line 1: not present\n",
        ),
        (
            b"86400001 end\n",
            1,
            RosterKind::TicksOver,
            "roster line 1: too many ticks\n",
        ),
        (
            b"5 join 1 - -\n0 end\n",
            2,
            RosterKind::Back,
            "roster line 2: time goes back\n",
        ),
        (
            b"0 join 1 pcmu:5 -\n0 join 2 pcma:5 -\n",
            2,
            RosterKind::SsrcTaken,
            "roster line 2: SSRC taken\n",
        ),
        (
            b"0 end\n0 leave 1\n",
            2,
            RosterKind::AfterEnd,
            "roster line 2: after end\n",
        ),
        (
            b"0 join 1 - -\n0 leave 1\n0 join 1 - -\n",
            3,
            RosterKind::Used,
            "roster line 3: number used\n",
        ),
        (b"", 1, RosterKind::NoEnd, "roster line 1: no end\n"),
    ];
    for (roster, line, kind, err) in cases {
        let row = Row {
            shows: "a roster with a bad line",
            roster,
            status: Status::RosterFault { line, kind },
            out: b"",
            err,
            ..BARE
        };
        check(rt, alloc, &row)?;
    }
    Ok(())
}

fn failures(rt: &impl Abort, alloc: Global) -> Result<(), AllocError> {
    let first: &[u8] = &[0];
    let none: &[u8] = &[];
    let cases: [([&[u8]; 4], Status, &[u8], &str); 5] = [
        (
            [first, none, none, none],
            Status::ReadFault,
            b"",
            "read failed\n",
        ),
        (
            [none, first, none, none],
            Status::ReadFault,
            b"",
            "read failed\n",
        ),
        (
            [none, none, first, none],
            Status::WriteFault,
            b"",
            "write failed\n",
        ),
        (
            [none, none, none, first],
            Status::WriteFault,
            HEAD,
            "write failed\n",
        ),
        ([first, none, none, first], Status::ReadFault, b"", ""),
    ];
    for (fail, status, out, err) in cases {
        let row = Row {
            shows: "a call that fails",
            fail,
            status,
            out,
            err,
            ..BARE
        };
        check(rt, alloc, &row)?;
    }
    let row = Row {
        shows: "a name that isn't there",
        words: &["alone", "s"],
        status: Status::ReadFault,
        out: b"",
        err: "read failed\n",
        ..BARE
    };
    check(rt, alloc, &row)
}

/// Each end of a call has its status, its output and its line.
#[test]
fn each_end_has_its_line(rt: HostRuntime) -> Result<(), Fail> {
    let alloc = rt.alloc();
    check(&rt, alloc, &BARE)?;
    usage(&rt, alloc)?;
    sessions(&rt, alloc)?;
    bad_lines(&rt, alloc)?;
    captures(&rt, alloc)?;
    failures(&rt, alloc)?;
    Ok(())
}
