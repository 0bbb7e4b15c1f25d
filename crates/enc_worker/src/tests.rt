//! The loop over a Book, alone on its thread.

ghost use Rattle.std.specs.Prelude.{◌≡◌, ◌≤◌};
ghost use Rattle.tick_core.specs.Standing.{IsKnown};

use crate::{Gate, NoGate, Point, work};
use g726_bits::Rate;
use std::sync::atomic::{AtomicU64, Ordering};
use std::test::Fail;
use talk_mix::Tick;
use tick_core::{Book, JoinSpec};

/// Counts what comes by.
#[derive(Drop)]
struct Counts {
    claimed: AtomicU64,
    published: AtomicU64,
}

impl Gate for Counts {
    fn at(&self, point: Point) {
        match point {
            Point::Claimed(_) => {
                self.claimed.fetch_add(1, Ordering::SeqCst);
            }
            Point::Published(_) => {
                self.published.fetch_add(1, Ordering::SeqCst);
            }
            Point::Joined(_) => {}
        }
    }
}

fn spec(member: u32, rate: Rate) -> JoinSpec
    ensures payload_type { result.pt ≤ 127 }
    ensures ticks { result.ticks ≡ 1 }
{
    JoinSpec {
        member,
        rate,
        pt: 97,
        ssrc: 10,
        first_seq: 0,
        first_stamp: 0,
        ticks: 1,
    }
}

fn join(book: &mut Book, member: u32, rate: Rate)
    requires { IsKnown book.old }
    ensures { IsKnown book.new }
{
    if !book.ended() {
        let _ = book.join(spec(member, rate));
    }
}

fn close(book: &mut Book)
    requires { IsKnown book.old }
    ensures { IsKnown book.new }
{
    if !book.ended() {
        let _ = book.close(Tick::empty());
    }
}

fn end(book: &mut Book)
    requires { IsKnown book.old }
    ensures { IsKnown book.new }
{
    book.end();
}

/// Two listeners of different rates and three ticks make six runs, each claimed and published once. Then none is left.
#[test]
fn a_worker_runs_what_waits_until_the_end(rt: HostRuntime) -> Result<(), Fail> {
    let mut book = Book::new(rt.alloc());
    join(&mut book, 1, Rate::R24);
    join(&mut book, 2, Rate::R32);
    close(&mut book);
    close(&mut book);
    close(&mut book);
    end(&mut book);
    let counts = Counts {
        claimed: AtomicU64::new(0),
        published: AtomicU64::new(0),
    };
    assert_eq!(rt; work(&rt, &mut book, &counts), 6);
    assert_eq!(rt; counts.claimed.load(Ordering::SeqCst), 6);
    assert_eq!(rt; counts.published.load(Ordering::SeqCst), 6);
    assert_eq!(rt; work(&rt, &mut book, &NoGate), 0);
    assert_eq!(rt; (book.issued(), book.waiting()), (6, 0));
    Ok(())
}
