//! How much of a session's answer was written.
ghost use Rattle.std.specs.Prelude.{◌≡◌, ◌+◌, ◌<◌, ◌≤◌, OnOk, IfOk};

use edge_io::Memory;
use std::marker::Model;

/// The ticks that were written, from the first one on, and their packets.
#[derive(Drop)]
pub(crate) struct Written {
    ticks: u32,
    packets: u64,
}

impl Model for Written {
    ghost use Rattle.desk_run.specs.Handing.{Amount};

    ghost Value = { Amount };

    ghost view = { λ w. record { ticks = w.ticks; packets = w.packets } };
}

impl Written {
    /// Nothing.
    pub(crate) fn nothing() -> Written
        ensures { result ≡ record { ticks = 0; packets = 0 } }
    {
        Written {
            ticks: 0,
            packets: 0,
        }
    }

    /// How many ticks were written.
    pub(crate) fn ticks(&self) -> u32
        ensures { result ≡ self.now.ticks }
    {
        self.ticks
    }

    /// How many packets they have.
    pub(crate) fn packets(&self) -> u64
        ensures { result ≡ self.now.packets }
    {
        self.packets
    }

    /// Counts one more tick, which has so many packets.
    ///
    /// # Errors
    ///
    /// `Memory` where they are more than 64 bits can count.
    pub(crate) fn add(&mut self, packets: usize) -> Result<(), Memory>
        requires early { self.old.ticks < 4320000 }
        ensures { OnOk result (self.new ≡ record { ticks = self.old.ticks + 1; packets = self.old.packets + packets }) }
    {
        self.packets = counted(self.packets, packets)?;
        self.ticks += 1;
        Ok(())
    }
}

/// How many packets there are with some more.
///
/// # Errors
///
/// `Memory` where they are more than 64 bits can count.
pub(crate) fn counted(packets: u64, more: usize) -> Result<u64, Memory>
    ensures { IfOk result (λ all. all ≡ packets + more) }
{
    match packets.checked_add(more as u64) {
        Some(all) => Ok(all),
        None => Err(Memory),
    }
}
