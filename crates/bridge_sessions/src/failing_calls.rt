//! One call after the other fails.

use crate::answers::{Listener, Sent, answer_of, listener_with, silence};
use crate::captures::{ONE_TALKER, coded_silence, speech};
use crate::ends::{Call, Ran, calm_call, octets, run};
use bridge_calls::Status;
use edge_io::MemSource;
use std::alloc::Global;
use std::process::Abort;
use std::sync::Wait;
use std::test::Fail;
use std::thread::Threads;

/// A session over which calls fail: what it is given, its answer, and the line of its summary.
#[derive(Clone, Copy)]
struct Session<'a> {
    roster: &'a str,
    capture: &'a [u8],
    answer: &'a [u8],
    line: &'a str,
}

/// A talker of G.726, a listener who is sent packets of four ticks, and one of three who leaves after two.
const BUNDLES: &str =
    "0 join 1 g726-32:100:5 -\n0 join 2 - 32 96 7 0 0 4\n0 join 3 - 24 97 9 0 0 3\n40 leave 3\n100 end\n";

/// A talker of G.726, and a listener who comes two ticks before the conference is cut, and is sent packets of four ticks.
const OVER_A_CUT: &str = "0 join 1 g726-32:100:5 -\n179960 join 2 - 32 96 7 0 0 4\n180100 end\n";

/// A listener at 32 kbit/s whose packets carry four ticks.
fn by_fours() -> Listener {
    Listener {
        ticks: 4,
        ..listener_with(96, 7)
    }
}

/// A listener at 24 kbit/s whose packets carry three ticks.
fn by_threes() -> Listener {
    Listener {
        ticks: 3,
        ..listener_with(97, 9)
    }
}

/// The four ends of a call.
#[derive(Clone, Copy, PartialEq, Eq, Debug)]
enum End {
    Shelf,
    Capture,
    Output,
    ErrorStream,
}

/// What comes of a session where a call of an end fails: `ends_in` is its status and `line` what stands on the error stream. On the output
/// stand fronts of the answer; `fronts` are their lengths as later and later calls fail, each once. The end has `calls` calls in all.
#[derive(Clone, Copy)]
struct Case<'a> {
    end: End,
    ends_in: Status,
    line: &'a str,
    fronts: &'a [usize],
    calls: u8,
}

const ONE_TALKER_CASES: [Case<'static>; 4] = [
    Case {
        end: End::Shelf,
        ends_in: Status::ReadFault,
        line: "read failed\n",
        fronts: &[0],
        calls: 1,
    },
    // The line octet by octet, the file head, two reads a record, and the read that finds the end, in the last tick.
    Case {
        end: End::Capture,
        ends_in: Status::ReadFault,
        line: "read failed\n",
        fronts: &[0, 39, 139, 239],
        calls: 31,
    },
    // The head, and each packet.
    Case {
        end: End::Output,
        ends_in: Status::WriteFault,
        line: "write failed\n",
        fronts: &[0, 39, 139, 239],
        calls: 4,
    },
    // The line of the fault is the second call.
    Case {
        end: End::ErrorStream,
        ends_in: Status::WriteFault,
        line: "write failed\n",
        fronts: &[339],
        calls: 1,
    },
];

/// The head, three packets of two, four and one ticks, and the line's end as above; five records.
const BUNDLES_CASES: [Case<'static>; 4] = [
    Case {
        end: End::Shelf,
        ends_in: Status::ReadFault,
        line: "read failed\n",
        fronts: &[0],
        calls: 1,
    },
    Case {
        end: End::Capture,
        ends_in: Status::ReadFault,
        line: "read failed\n",
        fronts: &[0, 39, 179, 519],
        calls: 35,
    },
    Case {
        end: End::Output,
        ends_in: Status::WriteFault,
        line: "write failed\n",
        fronts: &[0, 39, 179, 519],
        calls: 4,
    },
    Case {
        end: End::ErrorStream,
        ends_in: Status::WriteFault,
        line: "write failed\n",
        fronts: &[619],
        calls: 1,
    },
];

/// The head, a packet of four ticks, of which two were before the cut, and one of three. All records come long before the listener.
const OVER_A_CUT_CASES: [Case<'static>; 4] = [
    Case {
        end: End::Shelf,
        ends_in: Status::ReadFault,
        line: "read failed\n",
        fronts: &[0],
        calls: 1,
    },
    Case {
        end: End::Capture,
        ends_in: Status::ReadFault,
        line: "read failed\n",
        fronts: &[0, 39],
        calls: 35,
    },
    Case {
        end: End::Output,
        ends_in: Status::WriteFault,
        line: "write failed\n",
        fronts: &[0, 39, 379],
        calls: 3,
    },
    Case {
        end: End::ErrorStream,
        ends_in: Status::WriteFault,
        line: "write failed\n",
        fronts: &[639],
        calls: 1,
    },
];

/// The forms by which a session is run. Beside workers later ticks are read before a tick is written, yet one call that fails ends the
/// session in the same way.
const FORMS: [&[&str]; 2] = [&["alone", "r"], &["shared", "2", "r"]];

/// Runs a session by a form. These calls of an end fail.
fn run_failing<R: Threads + Wait + Sync>(
    rt: &R,
    alloc: Global,
    words: &[&str],
    session: Session<'_>,
    end: End,
    calls: &[u8],
) -> Result<Ran, Fail> {
    let bare = Call {
        words,
        ..calm_call(session.roster)
    };
    let call = match end {
        End::Shelf => Call {
            failing_takes: calls,
            ..bare
        },
        End::Capture => bare,
        End::Output => Call {
            failing_writes: calls,
            ..bare
        },
        End::ErrorStream => Call {
            failing_lines: calls,
            ..bare
        },
    };
    let failing_reads = if end == End::Capture { calls } else { &[] };
    let mut dump = MemSource::new(
        octets(alloc, session.capture)?,
        octets(alloc, failing_reads)?,
    );
    run(rt, alloc, call, &mut dump)
}

/// Each call of an end fails in turn, until one isn't reached.
fn fail_in_turn<R: Abort + Threads + Wait + Sync>(
    rt: &R,
    alloc: Global,
    words: &[&str],
    session: Session<'_>,
    case: Case<'_>,
) -> Result<(), Fail> {
    fail_by(rt, alloc, words, session, case)?;
    pass_by(rt, alloc, words, session, case)
}

/// Each call of an end fails in turn.
fn fail_by<R: Abort + Threads + Wait + Sync>(
    rt: &R,
    alloc: Global,
    words: &[&str],
    session: Session<'_>,
    case: Case<'_>,
) -> Result<(), Fail> {
    let end = case.end;
    let mut fronts = Vec::new(alloc);
    for call in 0..case.calls {
        let ran = run_failing(rt, alloc, words, session, end, &[call])?;
        assert_eq!(rt;
            ran.status,
            case.ends_in,
            "call {call} of {end:?}, by {words:?}"
        );
        assert!(rt;
            ran.err.as_slice() == case.line.as_bytes(),
            "the line, call {call} of {end:?}, by {words:?}"
        );
        let len = ran.out.as_slice().len();
        assert!(rt;
            Some(ran.out.as_slice()) == session.answer.get(..len),
            "the output, call {call} of {end:?}, by {words:?}"
        );
        if fronts.last() != Some(&len) {
            fronts.push(len)?;
        }
    }
    assert_eq!(rt;
        fronts.as_slice(),
        case.fronts,
        "the fronts of {end:?}, by {words:?}"
    );
    Ok(())
}

/// The call behind the last of an end is to fail, and isn't reached.
fn pass_by<R: Abort + Threads + Wait + Sync>(
    rt: &R,
    alloc: Global,
    words: &[&str],
    session: Session<'_>,
    case: Case<'_>,
) -> Result<(), Fail> {
    let end = case.end;
    let ran = run_failing(rt, alloc, words, session, end, &[case.calls])?;
    assert_eq!(rt;
        ran.status,
        Status::Done,
        "past the calls of {end:?}, by {words:?}"
    );
    assert!(rt;
        ran.out.as_slice() == session.answer,
        "past the calls of {end:?}, by {words:?}"
    );
    assert!(rt;
        ran.err.as_slice() == session.line.as_bytes(),
        "past the calls of {end:?}, by {words:?}"
    );
    Ok(())
}

/// Whichever call of an end fails, the session says so, and a front of the answer stands on the output.
#[test]
fn each_call_fails_in_turn(rt: HostRuntime) -> Result<(), Fail> {
    let alloc = rt.alloc();
    let capture = speech(alloc, 5, 3)?;
    let answer = silence(alloc, 3)?;
    let session = Session {
        roster: ONE_TALKER,
        capture: &capture,
        answer: &answer,
        line: "ticks 3 runs 3 packets 3 refused 0\n",
    };
    for words in FORMS {
        for case in ONE_TALKER_CASES {
            fail_in_turn(&rt, alloc, words, session, case)?;
        }
    }
    Ok(())
}

/// The same of packets of several ticks, one of which goes out at a leave and one at the end.
#[test]
fn each_call_fails_among_bundles(rt: HostRuntime) -> Result<(), Fail> {
    let alloc = rt.alloc();
    let capture = coded_silence(alloc, 5, 5)?;
    let sent = [
        Sent {
            tick: 2,
            to: by_threes(),
            number: 0,
            payload: &[0xff; 120],
        },
        Sent {
            tick: 3,
            to: by_fours(),
            number: 0,
            payload: &[0xff; 320],
        },
        Sent {
            tick: 5,
            to: by_fours(),
            number: 1,
            payload: &[0xff; 80],
        },
    ];
    let answer = answer_of(alloc, &sent)?;
    let session = Session {
        roster: BUNDLES,
        capture: &capture,
        answer: &answer,
        line: "ticks 5 runs 7 packets 3 refused 0\n",
    };
    for words in FORMS {
        for case in BUNDLES_CASES {
            fail_in_turn(&rt, alloc, words, session, case)?;
        }
    }
    Ok(())
}

/// The same of a packet that the conference was cut amid, after 9,000 ticks.
#[test]
fn each_call_fails_over_a_cut(rt: HostRuntime) -> Result<(), Fail> {
    let alloc = rt.alloc();
    let capture = coded_silence(alloc, 5, 5)?;
    let sent = [
        Sent {
            tick: 9001,
            to: by_fours(),
            number: 0,
            payload: &[0xff; 320],
        },
        Sent {
            tick: 9005,
            to: by_fours(),
            number: 1,
            payload: &[0xff; 240],
        },
    ];
    let answer = answer_of(alloc, &sent)?;
    let session = Session {
        roster: OVER_A_CUT,
        capture: &capture,
        answer: &answer,
        line: "ticks 9005 runs 7 packets 2 refused 0\n",
    };
    for case in OVER_A_CUT_CASES {
        fail_in_turn(&rt, alloc, FORMS[0], session, case)?;
    }
    Ok(())
}

/// A line that can't be written changes no status.
#[test]
fn line_fails_too(rt: HostRuntime) -> Result<(), Fail> {
    let alloc = rt.alloc();
    let capture = speech(alloc, 5, 3)?;
    let answer = silence(alloc, 3)?;
    let session = Session {
        roster: ONE_TALKER,
        capture: &capture,
        answer: &answer,
        line: "",
    };
    for words in FORMS {
        let ran = run_failing(&rt, alloc, words, session, End::ErrorStream, &[0, 1])?;
        assert_eq!(rt; ran.status, Status::WriteFault);
        assert!(rt; ran.out.as_slice() == answer.as_slice());
        assert!(rt; ran.err.as_slice().is_empty());
    }
    Ok(())
}
