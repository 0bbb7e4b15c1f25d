//! Sessions past a gate that holds a run while the desk and the other worker go on.

use crate::answers::{Sent, answer_of, listener_with};
use crate::captures::HEAD;
use crate::ends::{Call, calm_call, octets, run_gated};
use bridge_calls::Status;
use edge_io::CalmSource;
use enc_worker::{Gate, Point};
use std::alloc::Global;
use std::process::Abort;
use std::sync::Wait;
use std::sync::atomic::{AtomicBool, AtomicU64, Ordering};
use std::test::Fail;
use std::thread;
use std::thread::Threads;

/// How often a run that is held looks whether it may go on.
const MOST_LOOKS: u32 = 10_000_000;

/// Holds a job between its claim and its run until another has been published, if one is awaited, and a member has joined. It
/// fails where that doesn't come, and where a job is published before its claim went by.
#[derive(Drop)]
struct Hold {
    held: u64,
    awaited: Option<u64>,
    newcomer: u32,
    published: AtomicBool,
    joined: AtomicBool,
    /// A bit for each job whose claim went by.
    gone_by: AtomicU64,
    failed: AtomicBool,
}

fn holding(held: u64, awaited: Option<u64>, newcomer: u32) -> Hold {
    Hold {
        held,
        awaited,
        newcomer,
        published: AtomicBool::new(awaited.is_none()),
        joined: AtomicBool::new(false),
        gone_by: AtomicU64::new(0),
        failed: AtomicBool::new(false),
    }
}

/// The bit of a job. Those from 64 on, to which these sessions don't come, have none.
fn bit_of(number: u64) -> u64 {
    if number < 64 { 1 << number } else { 0 }
}

impl Hold {
    fn wait(&self) {
        for _ in 0..MOST_LOOKS {
            if self.published.load(Ordering::SeqCst) && self.joined.load(Ordering::SeqCst) {
                return;
            }
            thread::yield_now();
        }
        self.failed.store(true, Ordering::SeqCst);
    }
}

impl Gate for Hold {
    fn at(&self, point: Point) {
        match point {
            Point::Claimed(number) => {
                if number == self.held {
                    self.wait();
                }
                self.gone_by.fetch_or(bit_of(number), Ordering::SeqCst);
            }
            Point::Published(number) => {
                if self.gone_by.load(Ordering::SeqCst) & bit_of(number) == 0 {
                    self.failed.store(true, Ordering::SeqCst);
                }
                if Some(number) == self.awaited {
                    self.published.store(true, Ordering::SeqCst);
                }
            }
            Point::Joined(member) => {
                if member == self.newcomer {
                    self.joined.store(true, Ordering::SeqCst);
                }
            }
        }
    }
}

/// Runs a roster's session of silence beside two workers past a gate.
fn check<R: Abort + Threads + Wait + Sync>(
    rt: &R,
    alloc: Global,
    roster: &str,
    gate: &Hold,
    sent: &[Sent<'_>],
    line: &str,
) -> Result<(), Fail> {
    let held = gate.held;
    let mut dump = CalmSource::new(octets(alloc, HEAD)?);
    let call = Call {
        words: &["shared", "2", "r"],
        ..calm_call(roster)
    };
    let ran = run_gated(rt, alloc, call, &mut dump, gate)?;
    assert_eq!(rt; ran.status, Status::Done);
    assert!(rt; !gate.failed.load(Ordering::SeqCst), "job {held} is held");
    assert!(rt; ran.err.as_slice() == line.as_bytes());
    assert!(rt; ran.out.as_slice() == answer_of(alloc, sent)?.as_slice());
    Ok(())
}

/// A packet of silence to a listener at 24 kbit/s in payload type 97.
fn slow_packet(tick: u16, ssrc: u8, number: u16) -> Sent<'static> {
    Sent {
        tick,
        to: listener_with(97, ssrc),
        number,
        payload: &[0xff; 60],
    }
}

/// A packet of silence to a listener at 32 kbit/s in payload type 96.
fn fast_packet(tick: u16, ssrc: u8, number: u16) -> Sent<'static> {
    Sent {
        tick,
        to: listener_with(96, ssrc),
        number,
        payload: &[0xff; 80],
    }
}

/// While one worker holds a run, the other makes one, and the desk goes on to a tick in which a member joins; whichever of the first
/// two runs is held.
#[test]
fn one_worker_is_held_while_the_other_goes_on(rt: HostRuntime) -> Result<(), Fail> {
    let alloc = rt.alloc();
    let roster =
        "0 join 1 - 24 97 11 0 0\n0 join 2 - 32 96 12 0 0\n20 join 3 - 24 97 13 0 0\n60 end\n";
    let sent = [
        slow_packet(0, 11, 0),
        fast_packet(0, 12, 0),
        slow_packet(1, 11, 1),
        fast_packet(1, 12, 1),
        slow_packet(1, 13, 0),
        slow_packet(2, 11, 2),
        fast_packet(2, 12, 2),
        slow_packet(2, 13, 1),
    ];
    for (held, awaited) in [(1, 2), (2, 1)] {
        let gate = holding(held, Some(awaited), 3);
        check(
            &rt,
            alloc,
            roster,
            &gate,
            &sent,
            "ticks 3 runs 7 packets 8 refused 0\n",
        )?;
    }
    Ok(())
}

/// A listener whose first run is held leaves, and another comes: what was made for the first is sent all the same.
#[test]
fn held_run_of_one_who_left(rt: HostRuntime) -> Result<(), Fail> {
    let alloc = rt.alloc();
    let roster = "0 join 1 - 32 96 7 0 0\n20 leave 1\n20 join 2 - 32 96 8 0 0\n60 end\n";
    let sent = [
        fast_packet(0, 7, 0),
        fast_packet(1, 8, 0),
        fast_packet(2, 8, 1),
    ];
    let gate = holding(1, None, 2);
    check(
        &rt,
        alloc,
        roster,
        &gate,
        &sent,
        "ticks 3 runs 3 packets 3 refused 0\n",
    )
}
