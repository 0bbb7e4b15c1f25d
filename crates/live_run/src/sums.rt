//! What a live session has come to so far.
ghost use Rattle.std.specs.Prelude.{◌≡◌, ◌+◌, IfOk};

use edge_io::Memory;

/// The packets and reports so far, and how many of both didn't go.
#[derive(Clone, Copy)]
pub(crate) struct Sums {
    pub(crate) packets: u64,
    pub(crate) reports: u64,
    pub(crate) unsent: u64,
}

/// So many more.
///
/// # Errors
///
/// `Memory` where they are more than 64 bits can count.
pub(crate) fn counted(so_far: u64, more: usize) -> Result<u64, Memory>
    ensures { IfOk result (λ all. all ≡ so_far + more) }
{
    match so_far.checked_add(more as u64) {
        Some(all) => Ok(all),
        None => Err(Memory),
    }
}
