//! Calls of `audit` over ends in memory.
ghost use Rattle.std.specs.Prelude.{◌≡◌, IfOk};

use crate::{AuditStatus, Part, Where, audit};
use edge_io::{MemShelf, MemSink, MemSource, Octets, Words};
use roster_text::RosterKind;
use rtp_dump::DumpKind;
use std::alloc::{AllocError, Global};
use std::process::Abort;
use std::test::Fail;

/// An answer's line and file head.
const HEAD: &[u8] = b"#!rtpplay1.0 0.0.0.0/0\n\0\0\0\0\0\0\0\0\0\0\0\0\0\0\0\0";

/// The answer of a session of one tick, of silence, to one listener at 32 kbit/s.
const ONE_TICK: &[u8] = b"#!rtpplay1.0 0.0.0.0/0\n\0\0\0\0\0\0\0\0\0\0\0\0\0\0\0\0\
\x00\x64\x00\x5c\x00\x00\x00\x14\x80\xe0\0\0\0\0\0\0\0\0\0\x07\
\xff\xff\xff\xff\xff\xff\xff\xff\xff\xff\xff\xff\xff\xff\xff\xff\xff\xff\xff\xff\
\xff\xff\xff\xff\xff\xff\xff\xff\xff\xff\xff\xff\xff\xff\xff\xff\xff\xff\xff\xff\
\xff\xff\xff\xff\xff\xff\xff\xff\xff\xff\xff\xff\xff\xff\xff\xff\xff\xff\xff\xff\
\xff\xff\xff\xff\xff\xff\xff\xff\xff\xff\xff\xff\xff\xff\xff\xff\xff\xff\xff\xff";

const USAGE: &str = "usage: audit ROSTER OUT\n";

/// What a call is given, on a shelf whose files are named `r` and `o`; the calls of the shelf, the capture and the output that are
/// to fail; and what comes of it.
#[derive(Clone, Copy)]
struct Row<'a> {
    shows: &'a str,
    words: &'a [&'a str],
    roster: &'a [u8],
    octets: &'a [u8],
    capture: &'a [u8],
    fail: [&'a [u8]; 3],
    status: AuditStatus,
    line: &'a str,
}

/// The answer of one tick of silence, as it should be.
const WHOLE: Row<'static> = Row {
    shows: "the answer",
    words: &["r", "o"],
    roster: b"0 join 1 - 32 96 7 0 0\n20 end\n",
    octets: ONE_TICK,
    capture: HEAD,
    fail: [&[], &[], &[]],
    status: AuditStatus::Yes,
    line: "yes\n",
};

/// The one packet of that answer.
const FIRST: Option<Where> = Some(Where {
    packet: 0,
    tick: 0,
    member: 1,
});

fn octets(alloc: Global, items: &[u8]) -> Result<Octets, AllocError>
    ensures { IfOk result (λ octets. octets ≡ items.now) }
{
    Ok(Octets::of(Vec::from_slice(alloc, items)?))
}

fn check(rt: &impl Abort, alloc: Global, row: &Row<'_>) -> Result<(), AllocError> {
    let mut words = Words::new(alloc);
    for word in row.words {
        assert!(rt; words.push(alloc, word).is_ok(), "memory");
    }
    let [shelf, dump, out] = row.fail;
    let mut shelf = MemShelf::new(
        alloc,
        octets(alloc, b"r")?,
        octets(alloc, row.roster)?,
        octets(alloc, shelf)?,
    );
    let added = shelf.add(octets(alloc, b"o")?, octets(alloc, row.octets)?);
    assert!(rt; added.is_ok(), "memory");
    let mut dump = MemSource::new(octets(alloc, row.capture)?, octets(alloc, dump)?);
    let mut out = MemSink::new(alloc, octets(alloc, out)?);
    let status = audit(alloc, &words, &mut shelf, &mut dump, &mut out);
    let shows = row.shows;
    assert_eq!(rt; status, row.status, "{shows}");
    assert!(rt; out.as_slice() == row.line.as_bytes(), "the line: {shows}");
    Ok(())
}

/// The answer with this octet changed to 0 or, where it is 0, to 1.
fn changed(alloc: Global, at: usize) -> Result<Vec<u8>, AllocError> {
    let mut text = Vec::from_slice(alloc, ONE_TICK)?;
    if at < text.len() {
        text[at] = if text[at] == 0 { 1 } else { 0 };
    }
    Ok(text)
}

fn is_no<'a>(
    rt: &impl Abort,
    alloc: Global,
    octets: &'a [u8],
    at: u64,
    part: Part,
    place: Option<Where>,
    line: &'a str,
) -> Result<(), AllocError> {
    let row = Row {
        shows: "octets that aren't the answer",
        octets,
        status: AuditStatus::No { at, part, place },
        line,
        ..WHOLE
    };
    check(rt, alloc, &row)
}

fn differences(rt: &impl Abort, alloc: Global) -> Result<(), AllocError> {
    let cases = [
        (0, Part::FileHead, None, "no at 0: file head\n"),
        (38, Part::FileHead, None, "no at 38: file head\n"),
        (
            40,
            Part::RecordHead,
            FIRST,
            "no at 40: record head packet 0 tick 0 member 1\n",
        ),
        (
            47,
            Part::RtpHead,
            FIRST,
            "no at 47: RTP head packet 0 tick 0 member 1\n",
        ),
        (
            59,
            Part::Payload,
            FIRST,
            "no at 59: payload packet 0 tick 0 member 1\n",
        ),
        (
            138,
            Part::Payload,
            FIRST,
            "no at 138: payload packet 0 tick 0 member 1\n",
        ),
    ];
    for (at, part, place, line) in cases {
        let text = changed(alloc, at)?;
        is_no(rt, alloc, text.as_slice(), at as u64, part, place, line)?;
    }
    Ok(())
}

fn lengths(rt: &impl Abort, alloc: Global) -> Result<(), AllocError> {
    let cases = [
        (0, "no at 0: missing packet 0 tick 0 member 1\n"),
        (38, "no at 38: missing packet 0 tick 0 member 1\n"),
        (39, "no at 39: missing packet 0 tick 0 member 1\n"),
        (138, "no at 138: missing packet 0 tick 0 member 1\n"),
    ];
    for (len, line) in cases {
        if let Some(front) = ONE_TICK.get(..len) {
            is_no(rt, alloc, front, len as u64, Part::Missing, FIRST, line)?;
        }
    }
    let mut longer = Vec::from_slice(alloc, ONE_TICK)?;
    longer.push(0)?;
    is_no(
        rt,
        alloc,
        longer.as_slice(),
        139,
        Part::Extra,
        None,
        "no at 139: extra\n",
    )
}

fn is_usage(rt: &impl Abort, alloc: Global, words: &[&str]) -> Result<(), AllocError> {
    let row = Row {
        shows: "words of no form",
        words,
        status: AuditStatus::Usage,
        line: USAGE,
        ..WHOLE
    };
    check(rt, alloc, &row)
}

fn usage(rt: &impl Abort, alloc: Global) -> Result<(), AllocError> {
    is_usage(rt, alloc, &[])?;
    is_usage(rt, alloc, &["r"])?;
    is_usage(rt, alloc, &["r", "o", "o"])?;
    is_usage(rt, alloc, &["-r", "o"])?;
    is_usage(rt, alloc, &["r", "-o"])?;
    is_usage(rt, alloc, &["r", ""])
}

fn faults(rt: &impl Abort, alloc: Global) -> Result<(), AllocError> {
    let long = vec![in alloc; b'#'; 1_048_577]?;
    let rows = [
        Row {
            shows: "a roster that isn't there",
            words: &["x", "o"],
            status: AuditStatus::ReadFault,
            line: "read failed\n",
            ..WHOLE
        },
        Row {
            shows: "a roster that is too long, before octets that aren't there",
            words: &["r", "x"],
            roster: long.as_slice(),
            status: AuditStatus::RosterLong,
            line: "roster longer than 1048576 octets\n",
            ..WHOLE
        },
        Row {
            shows: "a bad line, before octets that aren't there",
            words: &["r", "x"],
            roster: b"0 leave 1\n20 end\n",
            status: AuditStatus::RosterFault {
                line: 1,
                kind: RosterKind::Absent,
            },
            line: "roster line 1: not present\n",
            ..WHOLE
        },
        Row {
            shows: "octets that aren't there, before a capture that is broken",
            words: &["r", "x"],
            capture: b"",
            status: AuditStatus::ReadFault,
            line: "read failed\n",
            ..WHOLE
        },
        Row {
            shows: "a capture that is broken",
            capture: b"",
            status: AuditStatus::DumpFault {
                at: 0,
                kind: DumpKind::NotDump,
            },
            line: "dump at 0: not a dump\n",
            ..WHOLE
        },
    ];
    for row in &rows {
        check(rt, alloc, row)?;
    }
    Ok(())
}

fn failed_calls(rt: &impl Abort, alloc: Global) -> Result<(), AllocError> {
    let reads: [[&[u8]; 3]; 4] = [
        [&[0], &[], &[]],
        [&[1], &[], &[]],
        [&[], &[0], &[]],
        [&[], &[24], &[]],
    ];
    for fail in reads {
        let row = Row {
            shows: "a read that fails",
            fail,
            status: AuditStatus::ReadFault,
            line: "read failed\n",
            ..WHOLE
        };
        check(rt, alloc, &row)?;
    }
    let row = Row {
        shows: "a verdict that can't be written",
        fail: [&[], &[], &[0]],
        status: AuditStatus::WriteFault,
        line: "write failed\n",
        ..WHOLE
    };
    check(rt, alloc, &row)?;
    let row = Row {
        shows: "nothing that can be written",
        fail: [&[], &[], &[0, 1]],
        status: AuditStatus::WriteFault,
        line: "",
        ..WHOLE
    };
    check(rt, alloc, &row)
}

/// What no full packet carried is sent a tick after the last one, and each packet has its own member.
fn packets(rt: &impl Abort, alloc: Global) -> Result<(), AllocError> {
    let row = Row {
        shows: "what is left after the last tick",
        roster: b"0 join 1 - 32 96 7 0 0 2\n20 end\n",
        octets: HEAD,
        status: AuditStatus::No {
            at: 39,
            part: Part::Missing,
            place: Some(Where {
                packet: 0,
                tick: 1,
                member: 1,
            }),
        },
        line: "no at 39: missing packet 0 tick 1 member 1\n",
        ..WHOLE
    };
    check(rt, alloc, &row)?;
    let row = Row {
        shows: "the second packet of a tick",
        roster: b"0 join 1 - 32 96 7 0 0\n0 join 9 - 32 96 8 0 0\n20 end\n",
        status: AuditStatus::No {
            at: 139,
            part: Part::Missing,
            place: Some(Where {
                packet: 1,
                tick: 0,
                member: 9,
            }),
        },
        line: "no at 139: missing packet 1 tick 0 member 9\n",
        ..WHOLE
    };
    check(rt, alloc, &row)?;
    let row = Row {
        shows: "a session without packets",
        roster: b"0 end\n",
        octets: b"#!rtp",
        status: AuditStatus::No {
            at: 5,
            part: Part::Missing,
            place: None,
        },
        line: "no at 5: missing\n",
        ..WHOLE
    };
    check(rt, alloc, &row)?;
    let row = Row {
        shows: "the answer of a session without packets",
        roster: b"0 end\n",
        octets: HEAD,
        ..WHOLE
    };
    check(rt, alloc, &row)
}

/// The answer is told from what has one octet changed, and from what is shorter or longer, with the first difference.
#[test]
fn verdicts(rt: HostRuntime) -> Result<(), Fail> {
    let alloc = rt.alloc();
    check(&rt, alloc, &WHOLE)?;
    differences(&rt, alloc)?;
    lengths(&rt, alloc)?;
    packets(&rt, alloc)?;
    Ok(())
}

/// Each other end has its cause, and the earliest decides.
#[test]
fn other_ends(rt: HostRuntime) -> Result<(), Fail> {
    let alloc = rt.alloc();
    usage(&rt, alloc)?;
    faults(&rt, alloc)?;
    failed_calls(&rt, alloc)?;
    Ok(())
}
