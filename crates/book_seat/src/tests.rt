//! Both sides of one Book, on one thread.

ghost use Rattle.std.specs.Prelude.{◌≡◌, ◌≤◌, ◌<◌, [], false, IfOk};
ghost use Rattle.conference_spec.specs.Feed.{ended};
ghost use Rattle.book_lock.specs.Views.{first_desk};
ghost use Rattle.book_seat.specs.Seated.{post_of};

use crate::DeskPass;
use book_lock::{BookLock, Pass};
use edge_io::Memory;
use g726_bits::Rate;
use std::alloc::Global;
use std::sync::Wait;
use std::test::Fail;
use talk_mix::Tick;
use tick_core::{Absent, Book, Claim, CloseFault, DeskCalls, JoinFault, JoinSpec, Turns};

fn spec(member: u32) -> JoinSpec
    ensures payload_type { result.pt ≤ 127 }
    ensures ticks { result.ticks ≡ 1 }
{
    JoinSpec {
        member,
        rate: Rate::R24,
        pt: 97,
        ssrc: 10,
        first_seq: 0,
        first_stamp: 0,
        ticks: 1,
    }
}

/// A lock round a new Book, and the desk's pass of it.
fn new_lock(alloc: Global) -> Result<(BookLock<Book>, Pass<Book>), Memory>
    ensures lock { IfOk result (λ r. r.1.home ≡ r.0) }
    ensures desk { IfOk result (λ r. r.1.view ≡ first_desk []) }
{
    let book = Book::new(alloc);
    let (lock, desk) = BookLock::new(alloc, book)?;
    Ok((lock, desk))
}

/// A join, after which the end hasn't come either.
fn join<W: Wait>(desk: &mut DeskPass<'_, W>, member: u32) -> Result<(), JoinFault>
    requires { ended desk.old.view.seen ≡ false }
    ensures open { ended desk.new.view.seen ≡ false }
    ensures post { post_of desk.new ≡ post_of desk.old }
{
    desk.join(spec(member))
}

/// A leave, after which the end hasn't come either.
fn leave<W: Wait>(desk: &mut DeskPass<'_, W>, member: u32) -> Result<(), Absent>
    requires { ended desk.old.view.seen ≡ false }
    ensures open { ended desk.new.view.seen ≡ false }
    ensures post { post_of desk.new ≡ post_of desk.old }
{
    desk.leave(member)
}

/// A close, after which the end hasn't come either.
fn close<W: Wait>(desk: &mut DeskPass<'_, W>) -> Result<(), CloseFault>
    requires { ended desk.old.view.seen ≡ false }
    ensures open { ended desk.new.view.seen ≡ false }
    ensures post { post_of desk.new ≡ post_of desk.old }
{
    desk.close(Tick::empty())
}

/// The number of the next tick's packets, if they are ready.
fn collect<W: Wait>(desk: &mut DeskPass<'_, W>) -> Option<usize>
    ensures open { ended desk.new.view.seen ≡ ended desk.old.view.seen }
    ensures post { post_of desk.new ≡ post_of desk.old }
{
    match desk.collect() {
        Ok(packets) => Some(packets.len()),
        Err(_) => None,
    }
}

/// How many ticks were closed and collected, how many of them are kept, and how many runs there were.
fn counts<W: Wait>(desk: &mut DeskPass<'_, W>) -> (u64, u64, u64, u64)
    ensures open { ended desk.new.view.seen ≡ ended desk.old.view.seen }
    ensures post { post_of desk.new ≡ post_of desk.old }
{
    let closed = desk.closed();
    let collected = desk.collected();
    let kept = desk.kept();
    (closed, collected, kept, desk.issued())
}

/// A cut, if there may be one.
fn cut<W: Wait>(desk: &mut DeskPass<'_, W>) -> bool
    requires { ended desk.old.view.seen ≡ false }
    ensures open { ended desk.new.view.seen ≡ false }
    ensures post { post_of desk.new ≡ post_of desk.old }
{
    let closed = desk.closed();
    let collected = desk.collected();
    if closed != collected || desk.kept() == 0 {
        return false;
    }
    desk.cut();
    true
}

/// A listener hears one tick, which a worker runs. Each side sees what the other did, and the closed lock gives the Book back.
#[test]
fn one_tick_by_desk_and_worker(rt: HostRuntime) -> Result<(), Fail> {
    let (lock, pass) = new_lock(rt.alloc())?;
    let mut desk = DeskPass::new(&rt, &lock, pass);
    let mut worker = desk.worker();
    assert!(rt; matches!(worker.claim(), Claim::Idle));
    assert_eq!(rt; join(&mut desk, 1), Ok(()));
    assert_eq!(rt; join(&mut desk, 1), Err(JoinFault::Used));
    assert_eq!(rt; close(&mut desk), Ok(()));
    assert_eq!(rt; collect(&mut desk), None);
    assert!(rt; !cut(&mut desk));
    let Claim::Job(job) = worker.claim() else {
        return Err("no job".into());
    };
    assert!(rt; worker.give_back(job).is_ok());
    let Claim::Job(job) = worker.claim() else {
        return Err("no job again".into());
    };
    assert_eq!(rt; (job.number(), job.tick()), (1, 0));
    assert!(rt; worker.publish(job.run()).is_ok());
    assert_eq!(rt; collect(&mut desk), Some(1));
    assert_eq!(rt; counts(&mut desk), (1, 1, 1, 1));
    assert!(rt; cut(&mut desk));
    assert!(rt; !cut(&mut desk));
    assert_eq!(rt; leave(&mut desk, 2), Err(Absent));
    assert_eq!(rt; leave(&mut desk, 1), Ok(()));
    assert_eq!(rt; counts(&mut desk), (1, 1, 0, 1));
    desk.end();
    assert!(rt; matches!(worker.claim(), Claim::Over));
    desk.take_in(worker);
    let pass = desk.into_pass();
    let book = lock.close(pass);
    assert!(rt; book.ended());
    assert_eq!(rt; (book.closed(), book.collected(), book.issued()), (1, 1, 1));
    Ok(())
}
