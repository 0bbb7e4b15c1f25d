//! The steps of a turn, each on the table of the lock.
ghost use Rattle.std.specs.Prelude.{◌≡◌, ℕ, true, false, List, [], ◌∷◌, Some, None, Box};
ghost use Rattle.std.specs.Global.{Global};
ghost use Rattle.std.specs.Fn.{FnOnceReturnsAtMut};
ghost use Rattle.book_lock.specs.declared.view.Standing.{Standing};
ghost use Rattle.book_lock.specs.Boxed.{Boxed};
ghost use Rattle.book_lock.specs.Views.{Idle, opening, first_desk, waits};
ghost use Rattle.book_lock.specs.Told.{Entered, Appended, Settled, Left};

use crate::plays::{Draw, Fill, Grow, Leave, Look, Open, Tickets};
use crate::turned::Turned;
use crate::view::View;
use atomic_table::{Seat, Shared};
use crossbeam_utils::Backoff;
use std::sync::Wait;
use std::thread;

/// The table of a lock, as passes see it.
pub(crate) type Board<T> = Shared<
    Option<Box<T>>,
    View<<T as Turned>::Entry, <T as Turned>::State>,
    (),
    Tickets,
>;

/// A pass's place at the table.
pub(crate) type Chair<T> = Seat<Option<Box<T>>, View<<T as Turned>::Entry, <T as Turned>::State>>;

/// The word with the next ticket.
const NEXT: usize = 0;

/// The word with the ticket that is served.
const SERVING: usize = 1;

/// The word with the length of the history.
const LENGTH: usize = 2;

/// The slot of the value.
pub(crate) const SLOT: usize = 0;

/// Puts the value of a new lock into its slot. The pass is then the desk's.
pub(crate) fn fill<T: Turned>(board: &Board<T>, seat: &mut Chair<T>, value: Box<T>)
    requires board { (board.now.table_id.words ≡ 3) × (board.now.table_id.slots ≡ 1) }
    requires seat { (seat.old.table_id ≡ board.now.table_id) × (seat.old.me ≡ (opening, [])) }
    requires stands { (feed : List T.Entry) × (state : T.State) × Boxed T.stands value feed state }
    ensures home { seat.new.table_id ≡ seat.old.table_id }
    ensures seen { (seen : List T.Entry) × (state : T.State) × Boxed T.stands value seen state × (seat.new.me ≡ (first_desk seen, [])) }
{
    board.load::<Open>(seat, NEXT);
    let length = value.fed();
    let empty = board.exchange(seat, SLOT, Some(value));
    let None = empty else { unreachable!() };
    board.fetch_add::<Fill>(seat, LENGTH, length);
}

/// Draws a ticket. Where all 2^64 - 1 are drawn, it waits for ever.
pub(crate) fn draw<T: Turned, W: Wait>(rt: &W, board: &Board<T>, seat: &mut Chair<T>) -> u64
    requires board { (board.now.table_id.words ≡ 3) × (board.now.table_id.slots ≡ 1) }
    requires seat { (seat.old.table_id ≡ board.now.table_id) × Idle seat.old.me.0 × (seat.old.me.1 ≡ []) }
    ensures home { seat.new.table_id ≡ seat.old.table_id }
    ensures drawn { seat.new.me ≡ (waits seat.old.me.0 result, []) }
{
    let mut next = board.peek(NEXT);
    for _ in rt.forever() {
        if next < u64::MAX {
            let found = board.compare_exchange::<Draw>(seat, NEXT, next, next + 1);
            if found == next {
                return next;
            }
            next = found;
        } else {
            thread::yield_now();
            next = board.peek(NEXT);
        }
    }
    unreachable!()
}

/// Waits until the pass's ticket is served: at first for some microseconds in which nothing else is done, since a turn is short,
/// and then by giving the processor to other threads.
pub(crate) fn enter<T: Turned, W: Wait>(rt: &W, board: &Board<T>, seat: &mut Chair<T>, ticket: u64)
    requires board { (board.now.table_id.words ≡ 3) × (board.now.table_id.slots ≡ 1) }
    requires seat { (seat.old.table_id ≡ board.now.table_id) × (seat.old.me.1 ≡ []) }
    requires ticket { (seat.old.me.0.ticket ≡ Some ticket) × (seat.old.me.0.holds ≡ false) }
    ensures home { seat.new.table_id ≡ seat.old.table_id }
    ensures entered { Entered (Boxed T.stands) seat.old.me seat.new.me }
{
    let backoff = Backoff::new();
    for _ in rt.forever() {
        if board.load::<Look>(seat, SERVING) == ticket {
            return;
        }
        backoff.snooze();
    }
    unreachable!()
}

/// Takes the value out of the slot.
pub(crate) fn take_out<T: Turned>(board: &Board<T>, seat: &mut Chair<T>) -> Box<T>
    requires { (seat.old.table_id ≡ board.now.table_id) × ((x : Box T Global) × (seat.old.me.1 ≡ (0, Some x) ∷ [])) }
    ensures home { seat.new.table_id ≡ seat.old.table_id }
    ensures value { seat.old.me.1 ≡ (0, Some result) ∷ [] }
    ensures seat { seat.new.me ≡ (seat.old.me.0, (0, None) ∷ []) }
{
    let out = board.exchange(seat, SLOT, None);
    let Some(value) = out else { unreachable!() };
    value
}

/// Puts the value back into the slot, which is still out with the pass.
pub(crate) fn put_back<T: Turned>(board: &Board<T>, seat: &mut Chair<T>, value: Box<T>)
    requires { (seat.old.table_id ≡ board.now.table_id) × (seat.old.me.1 ≡ (0, None) ∷ []) }
    ensures home { seat.new.table_id ≡ seat.old.table_id }
    ensures seat { seat.new.me ≡ (seat.old.me.0, (0, Some value) ∷ []) }
{
    let empty = board.exchange(seat, SLOT, Some(value));
    let None = empty else { unreachable!() };
}

/// Counts the entries that the turn appended, if there are any.
pub(crate) fn settle<T: Turned>(board: &Board<T>, seat: &mut Chair<T>, count: u64)
    requires board { (board.now.table_id.words ≡ 3) × (board.now.table_id.slots ≡ 1) }
    requires seat { (seat.old.table_id ≡ board.now.table_id) × (seat.old.me.0.holds ≡ true) × ((t : ℕ) × (seat.old.me.0.ticket ≡ Some t)) }
    requires left { Appended (Boxed T.stands) seat.old.me count }
    ensures home { seat.new.table_id ≡ seat.old.table_id }
    ensures left { Settled (Boxed T.stands) seat.old.me seat.new.me }
{
    if count > 0 {
        board.fetch_add::<Grow>(seat, LENGTH, count);
    }
}

/// Passes the turn on.
pub(crate) fn leave<T: Turned>(board: &Board<T>, seat: &mut Chair<T>)
    requires board { (board.now.table_id.words ≡ 3) × (board.now.table_id.slots ≡ 1) }
    requires home { seat.old.table_id ≡ board.now.table_id }
    requires turn { (seat.old.me.0.holds ≡ true) × ((t : ℕ) × (seat.old.me.0.ticket ≡ Some t)) × ((was : Standing T.Entry T.State) × (seat.old.me.0.found ≡ Some was)) }
    requires value { (x : Box T Global) × (state : T.State) × (seat.old.me.1 ≡ (0, Some x) ∷ []) × Boxed T.stands x seat.old.me.0.seen state }
    ensures home { seat.new.table_id ≡ seat.old.table_id }
    ensures left { Left (Boxed T.stands) seat.old.me seat.new.me }
{
    board.fetch_add::<Leave>(seat, SERVING, 1);
}

/// Calls the function of a turn on the value in the box, once.
pub(crate) fn called<T, R, F: FnOnce(&mut T) -> R>(boxed: &mut Box<T>, f: F) -> R
    requires { (b : _) → b.now ≡ boxed.old.value → F.pre f b }
    ensures { FnOnceReturnsAtMut F.FnOnce f boxed.old.value result boxed.new.value }
{
    f(&mut **boxed)
}
