//! Calls of `report` over ends in memory.
ghost use Rattle.std.specs.Prelude.{◌≡◌, IfOk};

use crate::{ReportStatus, report};
use edge_io::{MemShelf, MemSink, MemSource, Octets, Words};
use std::alloc::{AllocError, Global};
use std::process::Abort;
use std::test::Fail;

/// A capture's line and file head.
const HEAD: &[u8] = b"#!rtpplay1.0 0.0.0.0/0\n\0\0\0\0\0\0\0\0\0\0\0\0\0\0\0\0";

/// The same, and three packets: of SSRC 5 with four loud samples, the same packet once more, and one of SSRC 6.
const THREE: &[u8] = b"#!rtpplay1.0 0.0.0.0/0\n\0\0\0\0\0\0\0\0\0\0\0\0\0\0\0\0\
\x00\x18\x00\x10\x00\x00\x00\x00\x80\x00\x00\x07\0\0\0\0\0\0\0\x05\x80\x80\x80\x80\
\x00\x18\x00\x10\x00\x00\x00\x00\x80\x00\x00\x09\0\0\0\0\0\0\0\x05\x80\x80\x80\x80\
\x00\x18\x00\x10\x00\x00\x00\x14\x80\x00\x00\x01\0\0\0\0\0\0\0\x06\x80\x80\x80\x80";

const PAIR: &[u8] = b"0 join 1 pcmu:5 -\n0 join 2 - 32 96 7 0 0 2\n100 end\n";

fn octets(alloc: Global, items: &[u8]) -> Result<Octets, AllocError>
    ensures { IfOk result (λ octets. octets ≡ items.now) }
{
    Ok(Octets::of(Vec::from_slice(alloc, items)?))
}

/// What a call is given, on a shelf whose file is named `r`, and what comes of it.
#[derive(Clone, Copy)]
struct Row<'a> {
    shows: &'a str,
    words: &'a [&'a str],
    roster: &'a [u8],
    capture: &'a [u8],
    /// The numbers of the calls that fail, counted from 0: takes from the shelf, reads, writes, and lines.
    takes: &'a [u8],
    reads: &'a [u8],
    writes: &'a [u8],
    lines: &'a [u8],
    status: ReportStatus,
    out: &'a str,
    err: &'a str,
}

fn check(rt: &impl Abort, alloc: Global, row: &Row<'_>) -> Result<(), AllocError> {
    let mut words = Words::new(alloc);
    for word in row.words {
        assert!(rt; words.push(alloc, word).is_ok(), "memory");
    }
    let mut shelf = MemShelf::new(
        alloc,
        octets(alloc, b"r")?,
        octets(alloc, row.roster)?,
        octets(alloc, row.takes)?,
    );
    let mut dump = MemSource::new(octets(alloc, row.capture)?, octets(alloc, row.reads)?);
    let mut out = MemSink::new(alloc, octets(alloc, row.writes)?);
    let mut err = MemSink::new(alloc, octets(alloc, row.lines)?);
    let status = report(alloc, &words, &mut shelf, &mut dump, &mut out, &mut err);
    let shows = row.shows;
    assert_eq!(rt; status, row.status, "{shows}");
    assert!(rt; out.as_slice() == row.out.as_bytes(), "the report: {shows}");
    assert!(rt; err.as_slice() == row.err.as_bytes(), "the line: {shows}");
    Ok(())
}

const TABLE: Row<'static> = Row {
    shows: "a talker, a listener, and an SSRC that nobody has",
    words: &["r"],
    roster: PAIR,
    capture: THREE,
    takes: &[],
    reads: &[],
    writes: &[],
    lines: &[],
    status: ReportStatus::Done,
    out: "session ticks 5 runs 5 packets 3 refused 1\n\
torn cut 0 short 0 version 0 sources 0 extension 0 padding 0\n\
heard none 4 one 1 two 0 three 0\n\
talker member 1 ssrc 5 heard 1\n\
stream ssrc 5 packets 2 missing 1 taken 2 octets 8 new 4 lost 4 restarted 0 late 0 early 0 unknown 0 other_type 0 empty 0 too_long 0 ragged 0\n\
stream ssrc 6 packets 1 missing 0 taken 0 octets 0 new 0 lost 0 restarted 0 late 0 early 0 unknown 1 other_type 0 empty 0 too_long 0 ragged 0\n\
listener member 2 rate 32 ticks 5 packets 3\n\
rate rate 16 packets 0 runs 0 packets_per_100_runs 0\n\
rate rate 24 packets 0 runs 0 packets_per_100_runs 0\n\
rate rate 32 packets 3 runs 5 packets_per_100_runs 60\n\
rate rate 40 packets 0 runs 0 packets_per_100_runs 0\n",
    err: "",
};

/// The report of a small session, in both forms.
#[test]
fn a_small_session_in_both_forms(rt: HostRuntime) -> Result<(), Fail> {
    let alloc = rt.alloc();
    check(&rt, alloc, &TABLE)?;
    let json = Row {
        shows: "the same in JSON",
        words: &["json", "r"],
        out: "{\"session\":{\"ticks\":5,\"runs\":5,\"packets\":3,\"refused\":1},\n\
\"torn\":{\"cut\":0,\"short\":0,\"version\":0,\"sources\":0,\"extension\":0,\"padding\":0},\n\
\"heard\":{\"none\":4,\"one\":1,\"two\":0,\"three\":0},\n\
\"talker\":[{\"member\":1,\"ssrc\":5,\"heard\":1}],\n\
\"stream\":[{\"ssrc\":5,\"packets\":2,\"missing\":1,\"taken\":2,\"octets\":8,\"new\":4,\"lost\":4,\"restarted\":0,\"late\":0,\"early\":0,\"unknown\":0,\"other_type\":0,\"empty\":0,\"too_long\":0,\"ragged\":0},\n\
{\"ssrc\":6,\"packets\":1,\"missing\":0,\"taken\":0,\"octets\":0,\"new\":0,\"lost\":0,\"restarted\":0,\"late\":0,\"early\":0,\"unknown\":1,\"other_type\":0,\"empty\":0,\"too_long\":0,\"ragged\":0}],\n\
\"listener\":[{\"member\":2,\"rate\":32,\"ticks\":5,\"packets\":3}],\n\
\"rate\":[{\"rate\":16,\"packets\":0,\"runs\":0,\"packets_per_100_runs\":0},\n\
{\"rate\":24,\"packets\":0,\"runs\":0,\"packets_per_100_runs\":0},\n\
{\"rate\":32,\"packets\":3,\"runs\":5,\"packets_per_100_runs\":60},\n\
{\"rate\":40,\"packets\":0,\"runs\":0,\"packets_per_100_runs\":0}]}\n",
        ..TABLE
    };
    check(&rt, alloc, &json)?;
    let empty = Row {
        shows: "a session without ticks",
        words: &["json", "r"],
        roster: b"0 end\n",
        capture: HEAD,
        out: "{\"session\":{\"ticks\":0,\"runs\":0,\"packets\":0,\"refused\":0},\n\
\"torn\":{\"cut\":0,\"short\":0,\"version\":0,\"sources\":0,\"extension\":0,\"padding\":0},\n\
\"heard\":{\"none\":0,\"one\":0,\"two\":0,\"three\":0},\n\
\"talker\":[],\n\"stream\":[],\n\"listener\":[],\n\
\"rate\":[{\"rate\":16,\"packets\":0,\"runs\":0,\"packets_per_100_runs\":0},\n\
{\"rate\":24,\"packets\":0,\"runs\":0,\"packets_per_100_runs\":0},\n\
{\"rate\":32,\"packets\":0,\"runs\":0,\"packets_per_100_runs\":0},\n\
{\"rate\":40,\"packets\":0,\"runs\":0,\"packets_per_100_runs\":0}]}\n",
        ..TABLE
    };
    check(&rt, alloc, &empty)?;
    Ok(())
}

/// An end of a call.
#[derive(Clone, Copy)]
enum End {
    Shelf,
    Capture,
    Output,
}

/// What comes of a row where one call of an end fails.
fn check_failing(
    rt: &impl Abort,
    alloc: Global,
    end: End,
    call: u8,
    row: Row<'_>,
) -> Result<(), AllocError> {
    let number = [call];
    let failing = match end {
        End::Shelf => Row {
            takes: &number,
            ..row
        },
        End::Capture => Row {
            reads: &number,
            ..row
        },
        End::Output => Row {
            writes: &number,
            ..row
        },
    };
    check(rt, alloc, &failing)
}

/// Each of an end's calls fails, and then the one behind its last, which isn't reached.
fn fail_in_turn(
    rt: &impl Abort,
    alloc: Global,
    end: End,
    calls: u8,
    row: Row<'_>,
) -> Result<(), AllocError> {
    for call in 0..calls {
        check_failing(rt, alloc, end, call, row)?;
    }
    check_failing(rt, alloc, end, calls, TABLE)
}

/// Each call of an end fails in turn: nothing is written then, and one line says why.
#[test]
fn each_call_fails_in_turn(rt: HostRuntime) -> Result<(), Fail> {
    let alloc = rt.alloc();
    let unread = Row {
        shows: "a call fails",
        status: ReportStatus::ReadFault,
        out: "",
        err: "read failed\n",
        ..TABLE
    };
    fail_in_turn(&rt, alloc, End::Shelf, 1, unread)?;
    // The line octet by octet, the file head, two reads a record, and the read that finds the end.
    fail_in_turn(&rt, alloc, End::Capture, 31, unread)?;
    let unwritten = Row {
        status: ReportStatus::WriteFault,
        err: "write failed\n",
        ..unread
    };
    fail_in_turn(&rt, alloc, End::Output, 1, unwritten)?;
    let untold = Row {
        shows: "the line that says why isn't taken either",
        writes: &[0],
        lines: &[0],
        err: "",
        ..unwritten
    };
    check(&rt, alloc, &untold)?;
    Ok(())
}
