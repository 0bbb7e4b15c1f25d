//! Calls of `rooms` over ends in memory.
ghost use Rattle.std.specs.Prelude.{◌≢◌, ◌≤◌, Err, IfOk, length};

use edge_io::{MemSink, Octets, Plan, Shelf, TakeFault, Words};
use enc_worker::NoGate;
use room_pool::MemOuts;
use rooms_run::{RoomsStatus, rooms};
use std::alloc::{AllocError, Global};
use std::process::Abort;
use std::sync::Wait;
use std::test::Fail;
use std::thread::Threads;

/// Octets, part by part.
type Parts<'a> = &'a [&'a [u8]];

/// The line and the file head of a capture, and of every answer.
const HEAD: &[u8] = b"#!rtpplay1.0 0.0.0.0/0\n\0\0\0\0\0\0\0\0\0\0\0\0\0\0\0\0";

/// A file of a shelf: its name, of how many octets the comment is that it begins with, and what stands behind that.
#[derive(Clone, Copy)]
struct File<'a> {
    name: &'a str,
    comment: usize,
    parts: Parts<'a>,
}

/// One listener at 32 kbit/s, for one tick.
const ONE: &[u8] = b"0 join 1 - 32 96 7 0 0\n20 end\n";

/// Two listeners at 24 kbit/s, of whom the second comes a tick after the first, for three ticks.
const TWO: &[u8] = b"0 join 1 - 24 96 11 0 0\n20 join 2 - 24 96 12 0 0\n60 end\n";

/// A talker and a listener at 32 kbit/s, for four ticks.
const TALK: &[u8] = b"0 join 1 pcmu:5 -\n0 join 2 - 32 96 7 0 0\n80 end\n";

/// How the record of the talker's one packet begins: 20 ms of mu-law stand behind, of the first tick.
const PACKET: &[u8] = b"\0\xb4\0\xac\0\0\0\0\x80\0\0\0\0\0\0\0\0\0\0\x05";

/// What is on each shelf beside a list: lists, rosters and captures.
const FILES: &[File<'static>] = &[
    File {
        name: "long_list",
        comment: 65_537,
        parts: &[],
    },
    File {
        name: "full_list",
        comment: 65_522,
        parts: &[b"one silence a\n"],
    },
    File {
        name: "one",
        comment: 0,
        parts: &[ONE],
    },
    File {
        name: "two",
        comment: 0,
        parts: &[TWO],
    },
    File {
        name: "talk",
        comment: 0,
        parts: &[TALK],
    },
    File {
        name: "bad",
        comment: 0,
        parts: &[b"20 end\n20 end\n"],
    },
    File {
        name: "full",
        comment: 1_048_546,
        parts: &[ONE],
    },
    File {
        name: "long",
        comment: 1_048_577,
        parts: &[],
    },
    File {
        name: "silence",
        comment: 0,
        parts: &[HEAD],
    },
    File {
        name: "speech",
        comment: 0,
        parts: &[HEAD, PACKET, &[0x80; 160]],
    },
    File {
        name: "torn",
        comment: 0,
        parts: &[HEAD, PACKET, &[0x80; 159]],
    },
    File {
        name: "no_dump",
        comment: 0,
        parts: &[b"#!rtpplay2.0"],
    },
    File {
        name: "huge",
        comment: 67_108_865,
        parts: &[],
    },
];

/// The answer to one listener who hears a tick of silence.
const ONE_TICK: Parts<'static> = &[
    HEAD,
    b"\0\x64\0\x5c\0\0\0\x14\x80\xe0\0\0\0\0\0\0\0\0\0\x07",
    &[0xff; 80],
];

/// The answer to two listeners who hear silence, one for three ticks and one for the last two of them.
const THREE_TICKS: Parts<'static> = &[
    HEAD,
    b"\0\x50\0\x48\0\0\0\x14\x80\xe0\0\0\0\0\0\0\0\0\0\x0b",
    &[0xff; 60],
    b"\0\x50\0\x48\0\0\0\x28\x80\x60\0\x01\0\0\0\xa0\0\0\0\x0b",
    &[0xff; 60],
    b"\0\x50\0\x48\0\0\0\x28\x80\xe0\0\0\0\0\0\0\0\0\0\x0c",
    &[0xff; 60],
    b"\0\x50\0\x48\0\0\0\x3c\x80\x60\0\x02\0\0\x01\x40\0\0\0\x0b",
    &[0xff; 60],
    b"\0\x50\0\x48\0\0\0\x3c\x80\x60\0\x01\0\0\0\xa0\0\0\0\x0c",
    &[0xff; 60],
];

/// The answer to a listener who hears three ticks of silence and then the talker, by an encoder of its own.
const HEARD: Parts<'static> = &[
    HEAD,
    b"\0\x64\0\x5c\0\0\0\x14\x80\xe0\0\0\0\0\0\0\0\0\0\x07",
    &[0xff; 80],
    b"\0\x64\0\x5c\0\0\0\x28\x80\x60\0\x01\0\0\0\xa0\0\0\0\x07",
    &[0xff; 80],
    b"\0\x64\0\x5c\0\0\0\x3c\x80\x60\0\x02\0\0\x01\x40\0\0\0\x07",
    &[0xff; 80],
    b"\0\x64\0\x5c\0\0\0\x50\x80\x60\0\x03\0\0\x01\xe0\0\0\0\x07",
    b"\x77\x77\x67\x55\x55\x45\x54\x44\x44\x44\x54\x44\x44\x44\x44\x54",
    b"\x44\x44\x44\x44\x44\x54\x43\x44\x45\x53\x43\x44\x35\x44\x44\x54",
    b"\x43\x44\x44\x35\x44\x53\x53\x43\x43\x44\x44\x44\x53\x43\x44\x53",
    b"\x43\x34\x25\x35\x43\x44\x52\x34\x52\x34\x43\x44\x52\x43\x43\x34",
    b"\xf5\x45\x14\x35\x52\x42\x61\x4f\x52\x22\x33\x35\x23\x53\x23\xf4",
];

/// What a call is given: its words, the file `list` of its shelf, by number the calls of the shelf, the outputs and the error stream that
/// are to fail, and the calls of the shelf for which there is no memory; and what comes of it: its status, what outputs hold, and what
/// stands on the error stream.
#[derive(Clone, Copy)]
struct Row<'a> {
    shows: &'a str,
    words: &'a [&'a str],
    list: Parts<'a>,
    failing_takes: &'a [u8],
    failing_puts: &'a [u8],
    failing_lines: &'a [u8],
    lacking_takes: &'a [u8],
    status: RoomsStatus,
    outs: &'a [(&'a str, Parts<'a>)],
    err: &'a str,
}

/// A list of one room.
const BARE: Row<'static> = Row {
    shows: "one room",
    words: &["2", "list"],
    list: &[b"one silence a\n"],
    failing_takes: &[],
    failing_puts: &[],
    failing_lines: &[],
    lacking_takes: &[],
    status: RoomsStatus::Done,
    outs: &[("a", ONE_TICK)],
    err: "room 1 ticks 1 runs 1 packets 1 refused 0\n",
};

/// The names of the outputs of all lists here.
const NAMES: [&str; 9] = ["a", "b", "c", "d", "e", "f", "g", "h", "i"];

/// A shelf with these files and a list. By one plan its calls fail, and by the other there is no memory for them. It doesn't tell what it
/// holds.
#[derive(Drop)]
struct Files<'a> {
    list: Parts<'a>,
    plan: Plan,
    lacks: Plan,
}

/// What comes of a call.
#[derive(Drop)]
struct Ran {
    status: RoomsStatus,
    outs: MemOuts,
    err: MemSink,
}

/// The octets of all parts.
fn joined(alloc: Global, parts: Parts<'_>) -> Result<Vec<u8>, AllocError> {
    let mut octets = Vec::new(alloc);
    for part in parts {
        octets.extend_from_slice(part)?;
    }
    Ok(octets)
}

/// The content of a file.
fn content_of(alloc: Global, file: File<'_>) -> Result<Vec<u8>, AllocError> {
    let mut content = vec![in alloc; b'#'; file.comment]?;
    if let Some(last) = content.last_mut() {
        *last = b'\n';
    }
    content.extend_from_slice(joined(alloc, file.parts)?.as_slice())?;
    Ok(content)
}

/// The content of a file, unless it is longer.
fn take_up_to(alloc: Global, file: File<'_>, at_most: usize) -> Result<Octets, TakeFault>
    ensures fits { IfOk result (λ octets. length octets ≤ at_most) }
    ensures not_failed { result ≢ Err TakeFault.Failed }
{
    if file.comment > at_most {
        return Err(TakeFault::TooLong);
    }
    let content = content_of(alloc, file)?;
    if content.len() > at_most {
        return Err(TakeFault::TooLong);
    }
    Ok(Octets::of(content))
}

/// The file of this name.
fn find(name: &str) -> Option<File<'static>> {
    for file in FILES {
        if file.name == name {
            return Some(*file);
        }
    }
    None
}

impl Files<'_> {
    /// The file of this name.
    fn file(&self, name: &str) -> Option<File<'_>> {
        if name == "list" {
            return Some(File {
                name: "list",
                comment: 0,
                parts: self.list,
            });
        }
        find(name)
    }
}

impl Shelf for Files<'_> {
    ghost use Rattle.edge_io.specs.File.{untold};

    ghost file = { λ _ _. untold };

    ghost faults = { λ s. s.plan.faults };

    ghost calm = { λ _. ⊥ };

    fn take(&mut self, alloc: Global, name: &str, at_most: usize) -> Result<Octets, TakeFault> {
        if self.lacks.call() {
            return Err(TakeFault::Memory);
        }
        if !self.plan.call() {
            if let Some(file) = self.file(name) {
                return take_up_to(alloc, file, at_most);
            }
        }
        self.plan.fault();
        Err(TakeFault::Failed)
    }
}

/// Runs a call.
fn run<R: Threads + Wait + Sync>(rt: &R, alloc: Global, row: Row<'_>) -> Result<Ran, Fail> {
    let mut words = Words::new(alloc);
    for word in row.words {
        words.push(alloc, word)?;
    }
    let mut shelf = Files {
        list: row.list,
        plan: Plan::new(octets(alloc, row.failing_takes)?),
        lacks: Plan::new(octets(alloc, row.lacking_takes)?),
    };
    let mut outs = MemOuts::new(alloc, octets(alloc, row.failing_puts)?);
    let mut err = MemSink::new(alloc, octets(alloc, row.failing_lines)?);
    let status = rooms(rt, alloc, &words, &mut shelf, &mut outs, &mut err, &NoGate);
    Ok(Ran { status, outs, err })
}

/// A list of octets.
fn octets(alloc: Global, items: &[u8]) -> Result<Octets, AllocError> {
    Ok(Octets::of(Vec::from_slice(alloc, items)?))
}

/// What an output is to hold: nothing, where none is named so.
fn wanted<'a>(outs: &'a [(&'a str, Parts<'a>)], name: &str) -> Parts<'a> {
    for (out, parts) in outs {
        if *out == name {
            return parts;
        }
    }
    &[]
}

/// Runs a call, and compares what comes of it.
fn check<R: Abort + Threads + Wait + Sync>(
    rt: &R,
    alloc: Global,
    row: Row<'_>,
) -> Result<(), Fail> {
    let shows = row.shows;
    let words = row.words;
    let ran = run(rt, alloc, row)?;
    assert_eq!(rt; ran.status, row.status, "{shows}, by {words:?}");
    assert!(rt;
        ran.err.as_slice() == row.err.as_bytes(),
        "the error stream: {shows}, by {words:?}"
    );
    for name in NAMES {
        let right = joined(alloc, wanted(row.outs, name))?;
        assert!(rt;
            ran.outs.content(name) == right.as_slice(),
            "the output {name}: {shows}, by {words:?}"
        );
    }
    Ok(())
}

/// Words that aren't `N LIST`.
const NO_COMMANDS: [&[&str]; 9] = [
    &[],
    &["2"],
    &["list"],
    &["2", "list", "list"],
    &["0", "list"],
    &["17", "list"],
    &["02", "list"],
    &["2", "-list"],
    &["2", ""],
];

/// Words that are no command use nothing: a shelf whose first call would fail isn't asked.
#[test]
fn words_that_are_no_command(rt: HostRuntime) -> Result<(), Fail> {
    let alloc = rt.alloc();
    for words in NO_COMMANDS {
        let row = Row {
            shows: "words that are no command",
            words,
            failing_takes: &[0],
            status: RoomsStatus::Usage,
            outs: &[],
            err: "usage: rooms N LIST\n",
            ..BARE
        };
        check(&rt, alloc, row)?;
    }
    Ok(())
}

/// Lists with a bad line, the number of the first, and the line that tells it.
const BAD_LISTS: [(&[u8], u32, &str); 10] = [
    (b"one silence\n", 1, "list line 1\n"),
    (b"one silence a b\n", 1, "list line 1\n"),
    (b"one silence \xff\n", 1, "list line 1\n"),
    (b"one silence a\none silence", 2, "list line 2\n"),
    (
        b"one silence a\n#\n\ntwo silence a\none\n",
        4,
        "list line 4\n",
    ),
    (b"", 1, "list line 1\n"),
    (b"# none\n\n", 3, "list line 3\n"),
    (b"none none a\nnone none a\n", 2, "list line 2\n"),
    (
        b"\n1 1 1\n1 1 2\n1 1 3\n1 1 4\n1 1 5\n1 1 6\n1 1 7\n1 1 8\n1 1 9\n1 1 10\n1 1 11\n1 1 12\n1 1 13\n1 1 14\n1 1 15\n1 1 16\n1 1 17\n",
        18,
        "list line 18\n",
    ),
    (b"1 1 1\n1 1 1\n1\n", 2, "list line 2\n"),
];

/// A bad list is told by its first bad line, and nothing that it names is taken: the second call of the shelf would fail.
#[test]
fn bad_lists(rt: HostRuntime) -> Result<(), Fail> {
    let alloc = rt.alloc();
    for (list, line, err) in BAD_LISTS {
        let row = Row {
            shows: "a list with a bad line",
            list: &[list],
            failing_takes: &[1],
            status: RoomsStatus::ListFault { line },
            outs: &[],
            err,
            ..BARE
        };
        check(&rt, alloc, row)?;
    }
    Ok(())
}

/// Lists that end in one of the other statuses before a room is run.
const NOT_RUN: [Row<'static>; 10] = [
    Row {
        shows: "a list that is too long",
        words: &["2", "long_list"],
        failing_takes: &[1],
        status: RoomsStatus::ListLong,
        outs: &[],
        err: "list longer than 65536 octets\n",
        ..BARE
    },
    Row {
        shows: "a list that isn't there",
        words: &["2", "none"],
        ..NOT_TAKEN
    },
    Row {
        shows: "a roster that isn't there, of the first room",
        list: &[b"none silence a\none silence b\n"],
        ..NOT_TAKEN
    },
    Row {
        shows: "a roster that isn't there, behind a good room",
        list: &[b"one silence a\nnone silence b\n"],
        ..NOT_TAKEN
    },
    Row {
        shows: "a capture that isn't there, behind a good room",
        list: &[b"one silence a\none none b\n"],
        ..NOT_TAKEN
    },
    Row {
        shows: "a capture that isn't there, of a bad roster",
        list: &[b"bad none a\n"],
        ..NOT_TAKEN
    },
    Row {
        shows: "no memory for the list",
        lacking_takes: &[0],
        ..LACKING
    },
    Row {
        shows: "no memory for the second capture",
        list: &[b"one silence a\none silence b\n"],
        lacking_takes: &[4],
        ..LACKING
    },
    Row {
        shows: "the line of the fault can't be written",
        words: &["2", "none"],
        failing_lines: &[0],
        err: "",
        ..NOT_TAKEN
    },
    Row {
        shows: "the line of a bad list can't be written",
        list: &[b"one\n"],
        failing_lines: &[0],
        status: RoomsStatus::ListFault { line: 1 },
        err: "",
        ..NOT_TAKEN
    },
];

/// Something that can't be read.
const NOT_TAKEN: Row<'static> = Row {
    shows: "what can't be read",
    status: RoomsStatus::ReadFault,
    outs: &[],
    err: "read failed\n",
    ..BARE
};

/// Something that there is no memory for.
const LACKING: Row<'static> = Row {
    shows: "what there is no memory for",
    status: RoomsStatus::Memory,
    outs: &[],
    err: "out of memory\n",
    ..BARE
};

/// Where no room is run, the status and its line say why, and nothing is written.
#[test]
fn no_room_is_run(rt: HostRuntime) -> Result<(), Fail> {
    let alloc = rt.alloc();
    for row in NOT_RUN {
        check(&rt, alloc, row)?;
    }
    Ok(())
}

/// Numbers of workers.
const WORKERS: [&str; 3] = ["1", "2", "3"];

/// Rooms of every end beside one another, and lists as long as they may be.
const RUN: [Row<'static>; 4] = [
    BARE,
    Row {
        shows: "a list of 65,536 octets",
        words: &["2", "full_list"],
        ..BARE
    },
    Row {
        shows: "good rooms beside one another",
        list: &[b"two silence b\none silence a\ntalk speech c\ntalk speech d\ntwo silence e\n"],
        outs: &[
            ("a", ONE_TICK),
            ("b", THREE_TICKS),
            ("c", HEARD),
            ("d", HEARD),
            ("e", THREE_TICKS),
        ],
        err: "room 1 ticks 3 runs 4 packets 5 refused 0\n\
room 2 ticks 1 runs 1 packets 1 refused 0\n\
room 3 ticks 4 runs 4 packets 4 refused 0\n\
room 4 ticks 4 runs 4 packets 4 refused 0\n\
room 5 ticks 3 runs 4 packets 5 refused 0\n",
        ..BARE
    },
    Row {
        shows: "good rooms beside rooms of every other end",
        list: &[
            b"bad huge a\none silence b\nlong huge c\ntalk torn d\ntalk speech e\n",
            b"two no_dump f\nfull silence g\none huge h\ntwo silence i",
        ],
        outs: &[
            ("b", ONE_TICK),
            ("d", &[HEAD]),
            ("e", HEARD),
            ("g", ONE_TICK),
            ("i", THREE_TICKS),
        ],
        err: "room 1 roster line 2: after end\n\
room 2 ticks 1 runs 1 packets 1 refused 0\n\
room 3 roster longer than 1048576 octets\n\
room 4 dump at 39: torn record\n\
room 5 ticks 4 runs 4 packets 4 refused 0\n\
room 6 dump at 9: not a dump\n\
room 7 ticks 1 runs 1 packets 1 refused 0\n\
room 8 dump longer than 67108864 octets\n\
room 9 ticks 3 runs 4 packets 5 refused 0\n",
        ..BARE
    },
];

/// Runs the rooms of a row beside so many workers.
fn check_beside<R: Abort + Threads + Wait + Sync>(
    rt: &R,
    alloc: Global,
    row: Row<'_>,
    workers: &str,
) -> Result<(), Fail> {
    let [_, list] = row.words else {
        return Err(Fail::from("a row's words aren't two"));
    };
    check(
        rt,
        alloc,
        Row {
            words: &[workers, list],
            ..row
        },
    )
}

/// Each room ends as if it were alone, whatever the others hold and however many workers there are.
#[test]
fn rooms_beside_one_another(rt: HostRuntime) -> Result<(), Fail> {
    let alloc = rt.alloc();
    for workers in WORKERS {
        for row in RUN {
            check_beside(&rt, alloc, row, workers)?;
        }
    }
    Ok(())
}

/// An end of which calls fail.
#[derive(Clone, Copy, PartialEq, Eq, Debug)]
enum End {
    Shelf,
    Outputs,
    ErrorStream,
}

/// What comes of rooms where a call of an end fails: the status, and the line that tells it. The end has `calls` calls in all.
#[derive(Clone, Copy)]
struct Case<'a> {
    end: End,
    status: RoomsStatus,
    line: &'a str,
    calls: u8,
}

/// Four rooms, of which one has no answer.
const FOUR: Row<'static> = Row {
    shows: "four rooms",
    list: &[b"one silence a\nbad silence b\ntwo silence c\ntalk speech d\n"],
    outs: &[("a", ONE_TICK), ("c", THREE_TICKS), ("d", HEARD)],
    err: "room 1 ticks 1 runs 1 packets 1 refused 0\n\
room 2 roster line 2: after end\n\
room 3 ticks 3 runs 4 packets 5 refused 0\n\
room 4 ticks 4 runs 4 packets 4 refused 0\n",
    ..BARE
};

/// What is written of them to the error stream, call by call.
const PIECES: [&str; 8] = [
    "room 1 ",
    "ticks 1 runs 1 packets 1 refused 0\n",
    "room 2 ",
    "roster line 2: after end\n",
    "room 3 ",
    "ticks 3 runs 4 packets 5 refused 0\n",
    "room 4 ",
    "ticks 4 runs 4 packets 4 refused 0\n",
];

/// The list, two files a room; an output for each answer; and the pieces.
const CASES: [Case<'static>; 3] = [
    Case {
        end: End::Shelf,
        status: RoomsStatus::ReadFault,
        line: "read failed\n",
        calls: 9,
    },
    Case {
        end: End::Outputs,
        status: RoomsStatus::WriteFault,
        line: "write failed\n",
        calls: 3,
    },
    Case {
        end: End::ErrorStream,
        status: RoomsStatus::WriteFault,
        line: "write failed\n",
        calls: 8,
    },
];

/// How many outputs are whole where this call of an end fails.
fn whole_outputs(end: End, call: usize) -> usize {
    match end {
        End::Shelf => 0,
        End::Outputs => call,
        End::ErrorStream => FOUR.outs.len(),
    }
}

/// How many pieces stand on the error stream before the line of the status.
fn whole_pieces(end: End, call: usize) -> usize {
    match end {
        End::Shelf | End::Outputs => 0,
        End::ErrorStream => call,
    }
}

/// The four rooms, of which these calls of an end fail.
fn failing(end: End, calls: &[u8]) -> Row<'_> {
    match end {
        End::Shelf => Row {
            failing_takes: calls,
            ..FOUR
        },
        End::Outputs => Row {
            failing_puts: calls,
            ..FOUR
        },
        End::ErrorStream => Row {
            failing_lines: calls,
            ..FOUR
        },
    }
}

/// What stands on the error stream where this call of an end fails.
fn told(alloc: Global, case: Case<'_>, call: usize) -> Result<String, AllocError> {
    let mut told = String::new(alloc);
    for piece in PIECES.iter().take(whole_pieces(case.end, call)) {
        told.push_str(piece)?;
    }
    told.push_str(case.line)?;
    Ok(told)
}

/// This call of an end fails.
fn fail_at<R: Abort + Threads + Wait + Sync>(
    rt: &R,
    alloc: Global,
    case: Case<'_>,
    call: u8,
) -> Result<(), Fail> {
    let told = told(alloc, case, usize::from(call))?;
    let whole = whole_outputs(case.end, usize::from(call));
    let calls = [call];
    let row = Row {
        shows: "a call that fails",
        status: case.status,
        outs: FOUR.outs.get(..whole).unwrap_or(&[]),
        err: told.as_str(),
        ..failing(case.end, &calls)
    };
    check(rt, alloc, row)
}

/// Whichever call of the shelf, the outputs or the error stream fails, the status says so. The outputs before it are whole, and the
/// others hold nothing. The call behind the last isn't reached.
#[test]
fn each_call_fails_in_turn(rt: HostRuntime) -> Result<(), Fail> {
    let alloc = rt.alloc();
    for case in CASES {
        for call in 0..case.calls {
            fail_at(&rt, alloc, case, call)?;
        }
        check(&rt, alloc, failing(case.end, &[case.calls]))?;
    }
    Ok(())
}

/// Where the line of the status can't be written either, the status stays.
#[test]
fn line_fails_too(rt: HostRuntime) -> Result<(), Fail> {
    let alloc = rt.alloc();
    let row = Row {
        status: RoomsStatus::WriteFault,
        err: "room 1 ",
        ..failing(End::ErrorStream, &[1, 2])
    };
    check(&rt, alloc, row)
}
