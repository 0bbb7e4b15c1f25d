//! What a line of a text of peers says.

use crate::peer::Peer;

/// A member and where it is sent packets.
#[derive(Clone, Copy)]
pub(crate) struct Listed {
    pub(crate) member: u32,
    pub(crate) peer: Peer,
}
