//! The Books of the rooms, each under a lock of its own, and the passes of desks and workers.
ghost use Rattle.std.specs.Prelude.{◌≡◌, ◌<◌, ◌≤◌, ◌+◌, [], ℕ, length, All, IfOk, OnOk, vec_len};
ghost use Rattle.rooms_run.specs.Opening.{IsFresh, AreFresh, IsKeyed};

use book_lock::{BookLock, Pass};
use book_seat::{DeskPass, WorkerPass};
use edge_io::Memory;
use room_pool::RoomTurns;
use std::alloc::Global;
use tick_core::Book;

/// The desk's side of a room's Book, with the lock that guards it.
#[derive(Drop)]
pub(crate) struct Keyed<'a, W> {
    pub(crate) lock: &'a BookLock<Book>,
    pub(crate) desk: DeskPass<'a, W>,
}

impl<'a, W> Keyed<'a, W> {
    /// A worker's side of the Book. Takes no memory.
    pub(crate) fn hire(&mut self) -> WorkerPass<'a, W>
        requires room { self.old.desk.view.out < 65536 }
        ensures keyed { (n : ℕ) → IsKeyed n self.old → IsKeyed (n + 1) self.new }
    {
        self.desk.worker()
    }
}

/// A lock round a new Book, and the desk's pass.
fn new_lock(alloc: Global) -> Result<(BookLock<Book>, Pass<Book>), Memory>
    ensures { IfOk result (λ r. IsFresh r.0 r.1) }
{
    let Ok((lock, pass)) = BookLock::new(alloc, Book::new(alloc)) else {
        return Err(Memory);
    };
    Ok((lock, pass))
}

/// Locks round so many new Books, and the desk's pass of each.
pub(crate) fn new_locks(
    alloc: Global,
    count: usize,
) -> Result<(Vec<BookLock<Book>>, Vec<Pass<Book>>), Memory>
    ensures { IfOk result (λ r. AreFresh r.0.items r.1.items × (vec_len r.1 ≡ count)) }
{
    let mut locks = Vec::new(alloc);
    let mut passes = Vec::new(alloc);
    for _ in 0..count {
        let (lock, pass) = new_lock(alloc)?;
        locks.push(lock)?;
        passes.push(pass)?;
    }
    Ok((locks, passes))
}

/// The desk's side of each room, with its lock.
pub(crate) fn open_all<'a, W>(
    rt: &'a W,
    alloc: Global,
    locks: &'a [BookLock<Book>],
    mut passes: Vec<Pass<Book>>,
) -> Result<Vec<Keyed<'a, W>>, Memory>
    requires fresh { AreFresh locks.now passes.items }
    ensures keyed { IfOk result (λ keyed. All (IsKeyed 0) keyed.items × (vec_len keyed ≡ vec_len passes)) }
{
    let mut keyed = Vec::new(alloc);
    while let Some(pass) = passes.pop() {
        let lock = &locks[passes.len()];
        keyed.push(Keyed {
            lock,
            desk: DeskPass::new(rt, lock, pass),
        })?;
    }
    Ok(keyed)
}

/// One worker's passes of all rooms.
fn hire_one<'a, W>(
    rt: &'a W,
    alloc: Global,
    keyed: &mut [Keyed<'a, W>],
) -> Result<RoomTurns<'a, W>, Memory>
    requires few { (n : ℕ) × (n < 65536) × All (IsKeyed n) keyed.old }
    ensures keyed { OnOk result ((n : ℕ) → All (IsKeyed n) keyed.old → All (IsKeyed (n + 1)) keyed.new) }
{
    let mut turns = RoomTurns::new(rt, alloc);
    for room in keyed.iter_mut() {
        let Ok(()) = turns.add(room.hire()) else {
            return Err(Memory);
        };
    }
    Ok(turns)
}

/// So many workers, each with a pass of each room.
pub(crate) fn hire_all<'a, W>(
    rt: &'a W,
    alloc: Global,
    keyed: &mut [Keyed<'a, W>],
    count: u32,
) -> Result<Vec<RoomTurns<'a, W>>, Memory>
    requires few { count ≤ 16 }
    requires keyed { All (IsKeyed 0) keyed.old }
    ensures keyed { IfOk result (λ workers. (vec_len workers ≡ count) × All (IsKeyed count) keyed.new) }
{
    let mut workers = Vec::new(alloc);
    for _ in 0..count {
        workers.push(hire_one(rt, alloc, keyed)?)?;
    }
    Ok(workers)
}
