//! The lock round a list of numbers.
ghost use Rattle.std.specs.Prelude.{◌≡◌, ◌+◌, ◌++◌, ◌∷◌, true, [], reverse, OnOk, OnErr, IfOk};

use crate::{BookLock, Pass, Turned};
use edge_io::Memory;
use std::alloc::Global;
use std::sync::Wait;
use std::test::Fail;
use std::thread::{Threads, join};

/// Numbers, each an entry.
#[derive(Drop)]
struct Numbers {
    items: Vec<u64>,
}

impl Turned for Numbers {
    type Entry = u64;

    type State = ();

    ghost stands = { λ numbers feed _. feed ≡ reverse numbers.items.items };

    fn fed(&self) -> u64 {
        self.items.len() as u64
    }
}

impl Numbers {
    fn append(&mut self, number: u64) -> Result<(), Memory>
        ensures ok { OnOk result (self.new.items.items ≡ self.old.items.items ++ number ∷ []) }
        ensures err { OnErr result (self.new.items.items ≡ self.old.items.items) }
    {
        self.items.push(number)?;
        Ok(())
    }
}

/// Appends a number, in one turn of the desk's pass.
fn append<W: Wait>(
    rt: &W,
    lock: &BookLock<Numbers>,
    desk: &mut Pass<Numbers>,
    number: u64,
) -> Result<(), Memory>
    requires lock { desk.old.home ≡ lock.now }
    requires desk { desk.old.view.desk ≡ true }
    ensures lock { desk.new.home ≡ desk.old.home }
    ensures desk { (desk.new.view.desk ≡ true) × (desk.new.view.out ≡ desk.old.view.out) }
{
    lock.turn(rt, desk, |numbers| numbers.append(number))
}

/// How many numbers there are, in one turn.
fn count<W: Wait>(rt: &W, lock: &BookLock<Numbers>, pass: &mut Pass<Numbers>) -> usize
    requires { pass.old.home ≡ lock.now }
    ensures lock { pass.new.home ≡ pass.old.home }
    ensures worker { pass.new.view.worker ≡ pass.old.view.worker }
{
    lock.turn(rt, pass, |numbers| numbers.items.len())
}

/// Appends the numbers below `end`, each in a turn.
fn append_all<W: Wait>(
    rt: &W,
    lock: &BookLock<Numbers>,
    mut desk: Pass<Numbers>,
    end: u64,
) -> Result<Pass<Numbers>, Memory>
    requires lock { desk.home ≡ lock.now }
    requires desk { desk.view.desk ≡ true }
    ensures lock { IfOk result (λ p. p.home ≡ desk.home) }
    ensures desk { IfOk result (λ p. (p.view.desk ≡ true) × (p.view.out ≡ desk.view.out)) }
{
    for number in 0..end {
        append(rt, lock, &mut desk, number)?;
    }
    Ok(desk)
}

/// Looks `turns` times, and says whether the numbers never grew fewer.
fn look_all<W: Wait>(
    rt: &W,
    lock: &BookLock<Numbers>,
    mut worker: Pass<Numbers>,
    turns: u64,
) -> (Pass<Numbers>, bool)
    requires { worker.home ≡ lock.now }
    ensures { (result.0.home ≡ worker.home) × (result.0.view.worker ≡ worker.view.worker) }
{
    let mut most = 0;
    let mut rises = true;
    for _ in 0..turns {
        let now = count(rt, lock, &mut worker);
        rises = rises && most <= now;
        most = now;
    }
    (worker, rises)
}

/// The numbers after the desk appended `end` of them, while a worker looked on, and whether it never saw fewer than before.
fn both<R: Threads + Wait + Sync>(
    rt: &R,
    alloc: Global,
    end: u64,
) -> Result<(Numbers, bool), Memory> {
    let numbers = Numbers {
        items: Vec::new(alloc),
    };
    let (lock, mut desk) = BookLock::new(alloc, numbers)?;
    let worker = lock.split(&mut desk);
    let at = &lock;
    let (desk, (worker, rises)) = join(
        rt,
        move ||
            requires { (desk.home ≡ at.now) × (desk.view.desk ≡ true) }
            ensures { IfOk result (λ p. (p.home ≡ desk.home) × (p.view.desk ≡ true) × (p.view.out ≡ desk.view.out)) }
        { append_all(rt, at, desk, end) },
        move ||
            requires { worker.home ≡ at.now }
            ensures { (result.0.home ≡ worker.home) × (result.0.view.worker ≡ worker.view.worker) }
        { look_all(rt, at, worker, end) },
    );
    let mut desk = desk?;
    lock.join_back(&mut desk, worker);
    Ok((lock.close(desk), rises))
}

#[test]
fn the_desk_appends_while_a_worker_looks_on(rt: HostRuntime) -> Result<(), Fail> {
    let (numbers, rises) = both(&rt, rt.alloc(), 1000)?;
    assert!(rt; rises);
    assert_eq!(rt; numbers.items.len(), 1000);
    for (place, number) in numbers.items.iter().enumerate() {
        assert_eq!(rt; *number, place as u64);
    }
    Ok(())
}
