//! One letter, tried once.
ghost use Rattle.std.specs.Prelude.{◌≡◌, ◌≤◌, ◌+◌, true, [], ◌∷◌, OnOk, OnErr};
ghost use Rattle.live_link.specs.Posts.{Posts, PostsFront};

use edge_io::{Memory, PutFault};
use std::alloc::Global;
use udp_edge::{Link, Peer};

/// Tries a letter once. Where it doesn't go, that is counted in `unsent`.
///
/// # Errors
///
/// `Memory` where there was no memory, or more is unsent than 64 bits can count.
pub(crate) fn post<L: Link>(
    alloc: Global,
    link: &mut L,
    to: Peer,
    octets: &[u8],
    unsent: &mut u64,
) -> Result<(), Memory>
    requires open { L.is_open link.old ≡ true }
    ensures opened { L.is_open link.new ≡ true }
    ensures posted { OnOk result (Posts (L.traffic link.old) (L.traffic link.new) unsent.old unsent.new (record { to = to; octets = octets.now } ∷ [])) }
    ensures front { OnErr result (PostsFront (L.traffic link.old) (L.traffic link.new) (record { to = to; octets = octets.now } ∷ [])) }
{
    match link.send(alloc, to, octets) {
        Ok(()) => Ok(()),
        Err(PutFault::Failed) => count(unsent),
        Err(PutFault::Memory) => Err(Memory),
    }
}

/// One more that didn't go.
///
/// # Errors
///
/// `Memory` where they are more than 64 bits can count.
fn count(unsent: &mut u64) -> Result<(), Memory>
    ensures { OnOk result (unsent.new ≡ unsent.old + 1) }
{
    match unsent.checked_add(1) {
        Some(more) => {
            *unsent = more;
            Ok(())
        }
        None => Err(Memory),
    }
}
