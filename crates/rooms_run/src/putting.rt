//! What the rooms came to, put to their outputs.
ghost use Rattle.std.specs.Prelude.{◌≡◌, ◌≢◌, ℕ, List, length, All, OnOk, OnErr};
ghost use Rattle.std.specs.List.{AllZip};
ghost use Rattle.edge_io.specs.Answers.{put_failed};
ghost use Rattle.edge_io.specs.Told.{Counts, Grows, GrowsByFront};
ghost use Rattle.room_pool.specs.Listed.{Apart};

use crate::closing::Outcome;
use edge_io::PutFault;
use room_pool::{Outs, RoomList};
use std::alloc::Global;

/// Puts the answer of each room to its output.
///
/// # Errors
///
/// What the outputs answered. Then each output holds more by a front of its room's answer.
pub(crate) fn put_all<O: Outs>(
    alloc: Global,
    list: &RoomList,
    outcomes: &[Outcome],
    outs: &mut O,
) -> Result<(), PutFault>
    requires even { length outcomes.now ≡ length list.now }
    requires apart { Apart list.now }
    ensures whole { OnOk result (AllZip (λ n o. Grows (O.held outs.old n.out) (O.held outs.new n.out) o.out.octets) list.now outcomes.now) }
    ensures fronts { OnErr result (AllZip (λ n o. GrowsByFront (O.held outs.old n.out) (O.held outs.new n.out) o.out.octets) list.now outcomes.now) }
    ensures others { (name : List ℕ) → All (λ n. n.out ≢ name) list.now → O.held outs.new name ≡ O.held outs.old name }
    ensures counts { Counts (O.faults outs.old) (put_failed result) (O.faults outs.new) }
{
    for i in 0..list.len() {
        outs.put(alloc, list.room(i).out(), outcomes[i].out.as_slice())?;
    }
    Ok(())
}
