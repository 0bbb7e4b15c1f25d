//! A present member.

/// A present member, and the SSRCs that it talks and listens with.
#[derive(Clone, Copy)]
pub(crate) struct Seat {
    pub(crate) member: u32,
    pub(crate) talk: Option<u32>,
    pub(crate) listen: Option<u32>,
}
