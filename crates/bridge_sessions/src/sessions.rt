//! Small sessions, with answers that were worked out by hand.

use crate::answers::{Listener, Sent, answer_of, listener_with};
use crate::captures::{HEAD, ONE_TALKER, one_record, speech};
use crate::ends::{Call, FORMS, calm_call, octets, run};
use bridge_calls::Status;
use edge_io::CalmSource;
use roster_text::RosterKind;
use rtp_dump::DumpKind;
use std::alloc::Global;
use std::process::Abort;
use std::sync::Wait;
use std::test::Fail;
use std::thread::Threads;

/// What an encoder makes of silence at 24, 32 and 40 kbit/s, in every frame.
const SILENCE_24: &[u8] = &[0xff; 60];

const SILENCE_32: &[u8] = &[0xff; 80];

const SILENCE_40: &[u8] = &[0xff; 100];

/// What an encoder at 16 kbit/s makes of two frames of silence, by an encoder of its own.
const SILENCE_16: [[u8; 40]; 2] = [
    [
        0x00, 0x00, 0x00, 0x00, 0x00, 0x30, 0xc3, 0xc0, 0x0c, 0x0f, 0x03, 0x3c, 0x03, 0xcc, 0x00,
        0xcc, 0x00, 0xcf, 0x03, 0x30, 0x30, 0x30, 0x0c, 0x30, 0xf0, 0x33, 0x00, 0x33, 0x0c, 0xf0,
        0x30, 0xc0, 0x33, 0xc0, 0x0c, 0xc0, 0xc0, 0xc0, 0x30, 0x00,
    ],
    [
        0x3f, 0x03, 0x0c, 0x30, 0x30, 0x0c, 0xcc, 0x00, 0xcf, 0x00, 0x03, 0x03, 0x3c, 0x03, 0xf0,
        0x0c, 0x30, 0x30, 0x30, 0xc0, 0x33, 0x00, 0x0f, 0x03, 0xcc, 0x00, 0xcc, 0x00, 0xf0, 0x30,
        0x30, 0xc0, 0x33, 0xc0, 0xc0, 0xc0, 0x00, 0xff, 0x00, 0xc3,
    ],
];

/// What an encoder at 32 kbit/s makes, after three frames of silence, of a frame at the loudest sample of mu-law, by an
/// encoder of its own.
const LOUD_32: &[u8] = &[
    0x77, 0x77, 0x67, 0x55, 0x55, 0x45, 0x54, 0x44, 0x44, 0x44, 0x54, 0x44, 0x44, 0x44, 0x44, 0x54,
    0x44, 0x44, 0x44, 0x44, 0x44, 0x54, 0x43, 0x44, 0x45, 0x53, 0x43, 0x44, 0x35, 0x44, 0x44, 0x54,
    0x43, 0x44, 0x44, 0x35, 0x44, 0x53, 0x53, 0x43, 0x43, 0x44, 0x44, 0x44, 0x53, 0x43, 0x44, 0x53,
    0x43, 0x34, 0x25, 0x35, 0x43, 0x44, 0x52, 0x34, 0x52, 0x34, 0x43, 0x44, 0x52, 0x43, 0x43, 0x34,
    0xf5, 0x45, 0x14, 0x35, 0x52, 0x42, 0x61, 0x4f, 0x52, 0x22, 0x33, 0x35, 0x23, 0x53, 0x23, 0xf4,
];

/// A session, and what comes of it: its status, the packets that are sent, and the line on the error stream.
#[derive(Clone, Copy)]
struct Case<'a> {
    shows: &'a str,
    roster: &'a str,
    capture: &'a [u8],
    status: Status,
    sent: &'a [Sent<'a>],
    line: &'a str,
}

/// Runs a session by each form.
fn check<R: Abort + Threads + Wait + Sync>(
    rt: &R,
    alloc: Global,
    case: Case<'_>,
) -> Result<(), Fail> {
    let answer = answer_of(alloc, case.sent)?;
    for words in FORMS {
        check_form(rt, alloc, case, words, answer.as_slice())?;
    }
    Ok(())
}

fn check_form<R: Abort + Threads + Wait + Sync>(
    rt: &R,
    alloc: Global,
    case: Case<'_>,
    words: &[&str],
    answer: &[u8],
) -> Result<(), Fail> {
    let shows = case.shows;
    let mut dump = CalmSource::new(octets(alloc, case.capture)?);
    let call = Call {
        words,
        ..calm_call(case.roster)
    };
    let ran = run(rt, alloc, call, &mut dump)?;
    assert_eq!(rt; ran.status, case.status, "{shows}, by {words:?}");
    assert!(rt;
        ran.out.as_slice() == answer,
        "the output: {shows}, by {words:?}"
    );
    assert!(rt;
        ran.err.as_slice() == case.line.as_bytes(),
        "the error stream: {shows}, by {words:?}"
    );
    Ok(())
}

/// One tick of silence to one listener.
const SILENT_TICK: Case<'static> = Case {
    shows: "one tick of silence",
    roster: "0 join 1 - 32 96 7 0 0\n20 end\n",
    capture: HEAD,
    status: Status::Done,
    sent: &[],
    line: "ticks 1 runs 1 packets 1 refused 0\n",
};

/// A packet of a listener whose packets are counted from 0.
fn packet(tick: u16, ssrc: u8, number: u16, payload: &[u8]) -> Sent<'_> {
    Sent {
        tick,
        to: listener_with(96, ssrc),
        number,
        payload,
    }
}

/// Listeners who hear silence share runs where they are equal, and their numbers wrap.
#[test]
fn silent_sessions(rt: HostRuntime) -> Result<(), Fail> {
    let alloc = rt.alloc();
    let wrapping = Listener {
        pt: 98,
        ssrc: 9,
        first_seq: 65535,
        first_stamp: 4_294_967_136,
        ticks: 1,
    };
    let [first_16, second_16] = &SILENCE_16;
    let cases = [
        Case {
            sent: &[packet(0, 7, 0, SILENCE_32)],
            ..SILENT_TICK
        },
        Case {
            shows: "two listeners at one rate",
            roster: "0 join 1 - 24 96 11 0 0\n20 join 2 - 24 96 12 0 0\n60 end\n",
            sent: &[
                packet(0, 11, 0, SILENCE_24),
                packet(1, 11, 1, SILENCE_24),
                packet(1, 12, 0, SILENCE_24),
                packet(2, 11, 2, SILENCE_24),
                packet(2, 12, 1, SILENCE_24),
            ],
            line: "ticks 3 runs 4 packets 5 refused 0\n",
            ..SILENT_TICK
        },
        Case {
            shows: "two listeners at two rates",
            roster: "0 join 1 - 24 96 11 0 0\n20 join 2 - 40 96 12 0 0\n60 end\n",
            sent: &[
                packet(0, 11, 0, SILENCE_24),
                packet(1, 11, 1, SILENCE_24),
                packet(1, 12, 0, SILENCE_40),
                packet(2, 11, 2, SILENCE_24),
                packet(2, 12, 1, SILENCE_40),
            ],
            line: "ticks 3 runs 5 packets 5 refused 0\n",
            ..SILENT_TICK
        },
        Case {
            shows: "sequence number and timestamp wrap",
            roster: "0 join 1 - 16 98 9 65535 4294967136\n40 end\n",
            sent: &[
                Sent {
                    tick: 0,
                    to: wrapping,
                    number: 0,
                    payload: first_16,
                },
                Sent {
                    tick: 1,
                    to: wrapping,
                    number: 1,
                    payload: second_16,
                },
            ],
            line: "ticks 2 runs 2 packets 2 refused 0\n",
            ..SILENT_TICK
        },
    ];
    for case in cases {
        check(&rt, alloc, case)?;
    }
    Ok(())
}

/// Packets of up to four ticks: full ones with their last tick, and shorter ones with the tick after a leave, or after the end.
#[test]
fn bundled_sessions(rt: HostRuntime) -> Result<(), Fail> {
    let alloc = rt.alloc();
    let by_fours = Listener {
        ticks: 4,
        ..listener_with(96, 7)
    };
    let by_threes = Listener {
        ticks: 3,
        ..listener_with(97, 9)
    };
    let cases = [
        Case {
            shows: "five ticks by fours",
            roster: "0 join 1 - 32 96 7 0 0 4\n100 end\n",
            sent: &[
                Sent {
                    tick: 3,
                    to: by_fours,
                    number: 0,
                    payload: &[0xff; 320],
                },
                Sent {
                    tick: 5,
                    to: by_fours,
                    number: 1,
                    payload: SILENCE_32,
                },
            ],
            line: "ticks 5 runs 5 packets 2 refused 0\n",
            ..SILENT_TICK
        },
        Case {
            shows: "a leave after two of three ticks",
            roster: "0 join 1 - 24 97 9 0 0 3\n40 leave 1\n100 end\n",
            sent: &[Sent {
                tick: 2,
                to: by_threes,
                number: 0,
                payload: &[0xff; 120],
            }],
            line: "ticks 5 runs 2 packets 1 refused 0\n",
            ..SILENT_TICK
        },
    ];
    for case in cases {
        check(&rt, alloc, case)?;
    }
    Ok(())
}

/// A talker of G.726: its silence is taken, and refused where its octets aren't whole codes.
#[test]
fn coded_talkers(rt: HostRuntime) -> Result<(), Fail> {
    let alloc = rt.alloc();
    let mut record = Vec::from_slice(alloc, b"\0\x64\0\x5c\0\0\0\0\x80\x64\0\0\0\0\0\0\0\0\0\x05")?;
    record.extend_from_slice(SILENCE_32)?;
    let capture = one_record(alloc, record.as_slice())?;
    let silence = [
        packet(0, 7, 0, SILENCE_32),
        packet(1, 7, 1, SILENCE_32),
        packet(2, 7, 2, SILENCE_32),
        packet(3, 7, 3, SILENCE_32),
    ];
    let cases = [
        Case {
            shows: "silence at 32 kbit/s",
            roster: "0 join 1 g726-32:100:5 -\n0 join 2 - 32 96 7 0 0\n80 end\n",
            capture: &capture,
            sent: &silence,
            line: "ticks 4 runs 4 packets 4 refused 0\n",
            ..SILENT_TICK
        },
        Case {
            shows: "no whole codes at 24 kbit/s",
            roster: "0 join 1 g726-24:100:5 -\n0 join 2 - 32 96 7 0 0\n80 end\n",
            capture: &capture,
            sent: &silence,
            line: "ticks 4 runs 4 packets 4 refused 1\n",
            ..SILENT_TICK
        },
    ];
    for case in cases {
        check(&rt, alloc, case)?;
    }
    Ok(())
}

/// A talker is heard in the fourth tick from its packet's own on, by all but itself.
#[test]
fn one_talker(rt: HostRuntime) -> Result<(), Fail> {
    let alloc = rt.alloc();
    let four = speech(alloc, 5, 4)?;
    let one = speech(alloc, 101, 1)?;
    let mut five_listeners = Vec::new(alloc);
    for tick in 0..4u16 {
        for ssrc in 201..206u8 {
            let heard = if tick == 3 && ssrc != 201 {
                LOUD_32
            } else {
                SILENCE_32
            };
            five_listeners.push(packet(tick, ssrc, tick, heard))?;
        }
    }
    let cases = [
        Case {
            shows: "one talker and one listener",
            roster: "0 join 1 pcmu:5 -\n0 join 2 - 32 96 7 0 0\n80 end\n",
            capture: &four,
            sent: &[
                packet(0, 7, 0, SILENCE_32),
                packet(1, 7, 1, SILENCE_32),
                packet(2, 7, 2, SILENCE_32),
                packet(3, 7, 3, LOUD_32),
            ],
            line: "ticks 4 runs 4 packets 4 refused 0\n",
            ..SILENT_TICK
        },
        Case {
            shows: "five listeners, of whom one talks",
            roster: "0 join 1 pcmu:101 32 96 201 0 0\n0 join 2 - 32 96 202 0 0\n0 join 3 - 32 96 203 0 0\n0 join 4 - 32 96 204 0 0\n0 join 5 - 32 96 205 0 0\n80 end\n",
            capture: &one,
            sent: &five_listeners,
            line: "ticks 4 runs 5 packets 20 refused 0\n",
            ..SILENT_TICK
        },
    ];
    for case in cases {
        check(&rt, alloc, case)?;
    }
    Ok(())
}

/// Records that bring no speech: a broken one, one of RTCP, one that was cut when it was kept, and one of a stranger.
#[test]
fn records_without_speech(rt: HostRuntime) -> Result<(), Fail> {
    let alloc = rt.alloc();
    let short_length = one_record(alloc, b"\0\x07\0\0\0\0\0\0")?;
    let rtcp = one_record(alloc, b"\0\x08\0\0\0\0\0\0")?;
    let cut = one_record(alloc, b"\0\x14\0\xac\0\0\0\0\x80\0\0\0\0\0\0\0\0\0\0\x05")?;
    let stranger = speech(alloc, 5, 1)?;
    let cases = [
        Case {
            shows: "a record shorter than its head",
            capture: &short_length,
            status: Status::DumpFault {
                at: 39,
                kind: DumpKind::ShortLength,
            },
            line: "dump at 39: short length\n",
            ..SILENT_TICK
        },
        Case {
            shows: "a record of RTCP",
            capture: &rtcp,
            sent: &[packet(0, 7, 0, SILENCE_32)],
            ..SILENT_TICK
        },
        Case {
            shows: "a packet that was cut when it was kept",
            capture: &cut,
            sent: &[packet(0, 7, 0, SILENCE_32)],
            line: "ticks 1 runs 1 packets 1 refused 1\n",
            ..SILENT_TICK
        },
        Case {
            shows: "a packet of a stranger",
            capture: &stranger,
            sent: &[packet(0, 7, 0, SILENCE_32)],
            line: "ticks 1 runs 1 packets 1 refused 1\n",
            ..SILENT_TICK
        },
    ];
    for case in cases {
        check(&rt, alloc, case)?;
    }
    Ok(())
}

/// A call that ends before it writes anything.
fn check_refused<R: Abort + Threads + Wait + Sync>(
    rt: &R,
    alloc: Global,
    call: Call<'_>,
    status: Status,
    line: &str,
) -> Result<(), Fail> {
    let mut dump = CalmSource::new(octets(alloc, HEAD)?);
    let ran = run(rt, alloc, call, &mut dump)?;
    assert_eq!(rt; ran.status, status);
    assert!(rt; ran.out.as_slice().is_empty());
    assert!(rt; ran.err.as_slice() == line.as_bytes());
    Ok(())
}

/// Words that name no roster, and a roster with one member too many.
#[test]
fn words_and_members(rt: HostRuntime) -> Result<(), Fail> {
    let alloc = rt.alloc();
    let cases: [&[&str]; 9] = [
        &["shared", "17", "r"],
        &["shared", "04", "r"],
        &["shared", "0", "r"],
        &["shared", "r"],
        &["shared", "2"],
        &["shared", "2", "-r"],
        &["shared", "2", "r", "s"],
        &["demo", "0"],
        &["shares", "2", "r"],
    ];
    for words in cases {
        let no_session = Call {
            words,
            ..calm_call(ONE_TALKER)
        };
        check_refused(
            &rt,
            alloc,
            no_session,
            Status::Usage,
            "usage: bridge alone ROSTER or bridge shared N ROSTER or bridge demo NUMBER\n",
        )?;
    }
    let mut roster = String::new(alloc);
    for member in 0..1025u32 {
        write!(roster, "0 join {member} - -\n")?;
    }
    let full = Status::RosterFault {
        line: 1025,
        kind: RosterKind::Full,
    };
    for words in FORMS {
        let full_roster = Call {
            words,
            ..calm_call(roster.as_str())
        };
        check_refused(&rt, alloc, full_roster, full, "roster line 1025: full\n")?;
    }
    Ok(())
}
