//! What a line says.

use crate::commands::Timed;

/// What a line says: a command, or the end at its time.
#[derive(Clone, Copy)]
pub(crate) enum Entry {
    Says(Timed),
    Ends(u32),
}
