//! What a publication sets going.

ghost use Rattle.std.specs.Prelude.{◌+◌, ◌≤◌, ◌<◌, ◌^◌, length};
ghost use Rattle.tick_core.specs.Sweeping.{AllFit, Swept, SweptFrom, all_unknown};

use crate::open::Open;
use crate::queue::Queue;

/// From the published tick, the last of these, on, each newer tick takes states from the one before, as long as anything
/// moves; it says whether the newest one has given a run that is finished already.
pub(crate) fn sweep(newer: &mut [Open], queue: &mut Queue) -> bool
    requires some { 0 < length newer.old }
    requires fit { AllFit newer.old }
    requires room { length queue.old.tickets + all_unknown newer.old ≤ queue.old.room }
    requires numbers { queue.old.issued + all_unknown newer.old ≤ 2 ^ 62 }
    ensures swept { Swept newer.old queue.old newer.new queue.new result }
{
    let Some((open, older)) = newer.split_first_mut() else {
        unreachable!()
    };
    if older.is_empty() {
        return true;
    }
    if !sweep(older, queue) {
        return false;
    }
    open.pull(&older[0], queue)
}

/// Lets the ticks that are newer than the one at this place, which has a result more, take their states.
pub(crate) fn sweep_from(ticks: &mut [Open], place: usize, queue: &mut Queue)
    requires within { place < length ticks.old }
    requires fit { AllFit ticks.old }
    requires room { length queue.old.tickets + all_unknown ticks.old ≤ queue.old.room }
    requires numbers { queue.old.issued + all_unknown ticks.old ≤ 2 ^ 62 }
    ensures swept { SweptFrom place ticks.old queue.old ticks.new queue.new }
{
    let (newer, _) = ticks.split_at_mut(place + 1);
    let _ = sweep(newer, queue);
}
