//! A capture that is cut at every length.

use crate::answers::silence;
use crate::captures::{ONE_TALKER, speech};
use crate::ends::{Call, Ran, Slow, calm_call, octets, run};
use bridge_calls::Status;
use edge_io::CalmSource;
use rtp_dump::DumpKind;
use std::process::Abort;
use std::test::Fail;

/// What a call over the first octets of the capture answers, and how many octets of the answer it writes.
#[derive(Clone, Copy)]
struct Outcome {
    status: Status,
    written: usize,
}

fn broken(at: u64, kind: DumpKind, written: usize) -> Outcome {
    Outcome {
        status: Status::DumpFault { at, kind },
        written,
    }
}

/// What comes of the capture's first octets. A torn record is met in the tick that looks for its own end: the first and the second
/// in the first tick, and the third in the second tick. A cut between records leaves later ticks without any.
fn outcome_of(cut: u64) -> Outcome {
    if cut < 23 {
        return broken(cut, DumpKind::NotDump, 0);
    }
    if cut < 39 {
        return broken(23, DumpKind::TornHead, 0);
    }
    let place = cut - (cut - 39) % 180;
    let written = if place < 399 { 39 } else { 139 };
    match cut - place {
        0 => Outcome {
            status: Status::Done,
            written: 339,
        },
        1..8 => broken(place, DumpKind::TornHead, written),
        _ => broken(place, DumpKind::TornRecord, written),
    }
}

fn check(rt: &impl Abort, ran: &Ran, cut: u64, answer: &[u8]) {
    let wanted = outcome_of(cut);
    assert_eq!(rt; ran.status, wanted.status, "cut at {cut}");
    assert!(rt;
        Some(ran.out.as_slice()) == answer.get(..wanted.written),
        "the output, cut at {cut}"
    );
}

/// Each cut has its status, with place and kind of the fault, and whole packets on the output; in large pieces and in small ones,
/// and at each fifth length beside two workers.
#[test]
fn cut_at_every_length(rt: HostRuntime) -> Result<(), Fail> {
    let alloc = rt.alloc();
    let whole = speech(alloc, 5, 3)?;
    assert_eq!(rt; whole.len(), 579);
    let answer = silence(alloc, 3)?;
    assert_eq!(rt; answer.len(), 339);
    let beside_two = Call {
        words: &["shared", "2", "r"],
        ..calm_call(ONE_TALKER)
    };
    for cut in 0..580usize {
        let mut source = CalmSource::new(octets(alloc, &whole[..cut])?);
        let ran = run(&rt, alloc, calm_call(ONE_TALKER), &mut source)?;
        check(&rt, &ran, cut as u64, &answer);
        if cut % 5 == 4 {
            let mut source = CalmSource::new(octets(alloc, &whole[..cut])?);
            let ran = run(&rt, alloc, beside_two, &mut source)?;
            check(&rt, &ran, cut as u64, &answer);
        }
        for most in [1, 7, 100] {
            let source = CalmSource::new(octets(alloc, &whole[..cut])?);
            let mut slow = Slow { source, most };
            let ran = run(&rt, alloc, calm_call(ONE_TALKER), &mut slow)?;
            check(&rt, &ran, cut as u64, &answer);
        }
    }
    Ok(())
}
