//! Turns by one desk's pass and any number of workers' passes, each in a thread of its own.
ghost use Rattle.std.specs.Prelude.{◌≡◌, ◌+◌, ◌-◌, ◌/◌, ◌%◌, ◌^◌, ◌<◌, ◌≤◌, min, true, length, IfOk, IfSome, vec_len};
ghost use Rattle.std.specs.List.{All};

use crate::register::Register;
use book_lock::{BookLock, Pass};
use edge_io::Memory;
use std::alloc::Global;
use std::sync::Wait;
use std::thread::{Threads, for_each_mut, join_mut};

/// One turn of a worker's pass. Answers the number of turns that were taken by then.
pub fn visit<W: Wait>(rt: &W, lock: &BookLock<Register>, pass: &mut Pass<Register>) -> u64
    requires { pass.old.home ≡ lock.now }
    ensures lock { pass.new.home ≡ pass.old.home }
    ensures worker { pass.new.view.worker ≡ pass.old.view.worker }
    ensures once { pass.new.view.turns ≡ pass.old.view.turns + 1 }
    ensures told { IfSome pass.new.view.last (λ t. (t.left.state ≡ (t.found.state + 1) % 2 ^ 64) × (t.left.feed ≡ t.found.feed) × (result ≡ t.left.state)) }
{
    lock.turn(rt, pass, |register| register.visit())
}

/// One turn of the desk's pass, which makes an entry.
pub fn sign<W: Wait>(rt: &W, lock: &BookLock<Register>, desk: &mut Pass<Register>)
    requires lock { desk.old.home ≡ lock.now }
    requires desk { desk.old.view.desk ≡ true }
    ensures lock { desk.new.home ≡ desk.old.home }
    ensures desk { (desk.new.view.desk ≡ true) × (desk.new.view.out ≡ desk.old.view.out) }
    ensures once { desk.new.view.turns ≡ desk.old.view.turns + 1 }
    ensures signed { length desk.new.view.seen ≡ min (length desk.old.view.seen + 1) (2 ^ 64 - 1) }
{
    lock.turn(rt, desk, |register| register.sign());
}

/// Takes turns of a worker's pass.
fn visit_all<W: Wait>(rt: &W, lock: &BookLock<Register>, pass: &mut Pass<Register>, turns: u64)
    requires { (pass.old.home ≡ lock.now) × (pass.old.view.worker ≡ true) }
    ensures lock { (pass.new.home ≡ lock.now) × (pass.new.view.worker ≡ true) }
    ensures turns { pass.new.view.turns ≡ pass.old.view.turns + turns }
{
    for _ in 0..turns {
        visit(rt, lock, pass);
    }
}

/// Takes turns of the desk's pass.
fn sign_all<W: Wait>(rt: &W, lock: &BookLock<Register>, desk: &mut Pass<Register>, turns: u64)
    requires lock { desk.old.home ≡ lock.now }
    requires desk { desk.old.view.desk ≡ true }
    requires room { length desk.old.view.seen + turns < 2 ^ 64 }
    ensures lock { desk.new.home ≡ desk.old.home }
    ensures desk { (desk.new.view.desk ≡ true) × (desk.new.view.out ≡ desk.old.view.out) }
    ensures turns { desk.new.view.turns ≡ desk.old.view.turns + turns }
    ensures signed { length desk.new.view.seen ≡ length desk.old.view.seen + turns }
{
    for _ in 0..turns {
        sign(rt, lock, desk);
    }
}

/// Splits `count` workers' passes off the desk's.
fn hire(
    alloc: Global,
    lock: &BookLock<Register>,
    desk: &mut Pass<Register>,
    count: u64,
) -> Result<Vec<Pass<Register>>, Memory>
    requires lock { desk.old.home ≡ lock.now }
    requires desk { (desk.old.view.desk ≡ true) × (desk.old.view.out ≡ 0) }
    requires count { count < 65536 }
    ensures lock { desk.new.home ≡ desk.old.home }
    ensures desk { desk.new.view.desk ≡ true }
    ensures seen { desk.new.view.seen ≡ desk.old.view.seen }
    ensures out { IfOk result (λ v. vec_len v ≡ desk.new.view.out) }
    ensures workers { IfOk result (λ v. All (λ p. (p.home ≡ lock.now) × (p.view.worker ≡ true)) v.items) }
{
    let mut workers = Vec::new(alloc);
    for _ in 0..count {
        workers.push(lock.split(desk))?;
    }
    Ok(workers)
}

/// Takes turns of each worker's pass, each in a thread of its own.
fn visit_each<R: Threads + Wait + Sync>(
    rt: &R,
    lock: &BookLock<Register>,
    workers: &mut Vec<Pass<Register>>,
    turns: u64,
)
    requires { All (λ p. (p.home ≡ lock.now) × (p.view.worker ≡ true)) workers.old.items }
    ensures workers { All (λ p. (p.home ≡ lock.now) × (p.view.worker ≡ true)) workers.new.items }
    ensures count { vec_len workers.new ≡ vec_len workers.old }
{
    let workers = workers.as_mut_slice();
    let threads = workers.len();
    if threads > 0 {
        for_each_mut(
            rt,
            workers,
            threads,
            &|_, pass| { visit_all(rt, lock, pass, turns) },
        );
    }
}

/// Takes all workers' passes back.
fn take_back(lock: &BookLock<Register>, desk: &mut Pass<Register>, mut workers: Vec<Pass<Register>>)
    requires lock { desk.old.home ≡ lock.now }
    requires desk { (desk.old.view.desk ≡ true) × (desk.old.view.out ≡ vec_len workers) }
    requires workers { All (λ p. (p.home ≡ lock.now) × (p.view.worker ≡ true)) workers.items }
    ensures lock { desk.new.home ≡ desk.old.home }
    ensures desk { (desk.new.view.desk ≡ true) × (desk.new.view.out ≡ 0) }
    ensures seen { desk.new.view.seen ≡ desk.old.view.seen }
{
    while let Some(worker) = workers.pop() {
        lock.join_back(desk, worker);
    }
}

/// Takes this many turns, shared out over the passes, each in a thread of its own. One is the desk's, which makes an entry
/// at each of its turns, and takes those that an even share leaves over.
pub fn run<R: Threads + Wait + Sync>(
    rt: &R,
    alloc: Global,
    passes: u64,
    turns: u64,
) -> Result<Register, Memory>
    requires { (1 ≤ passes) × (passes ≤ 1024) }
    ensures entries { IfOk result (λ r. r.entries ≡ turns / passes + turns % passes) }
{
    let (lock, mut desk) = BookLock::new(alloc, Register::new())?;
    let mut workers = hire(alloc, &lock, &mut desk, passes - 1)?;
    let share = turns / passes;
    let rest = turns % passes;
    let at = &lock;
    join_mut(
        rt,
        &mut ||
            requires { All (λ p. (p.home ≡ at.now) × (p.view.worker ≡ true)) workers.items }
        { visit_each(rt, at, &mut workers, share) },
        &mut || sign_all(rt, at, &mut desk, share + rest),
    );
    take_back(&lock, &mut desk, workers);
    Ok(lock.close(desk))
}
