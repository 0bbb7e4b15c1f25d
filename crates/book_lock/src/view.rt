//! What a pass knows. No value of these types is made: they stand in contracts alone.

use std::collections::LinkedList;

/// A list of entries, the newest first, and a state, for which a value stands.
pub struct Standing<E, S> {
    pub feed: LinkedList<E>,
    pub state: S,
}

/// What the last turn of a pass found, and what it left.
pub struct LastTurn<E, S> {
    pub found: Standing<E, S>,
    pub left: Standing<E, S>,
}

/// What a pass knows of its lock.
pub struct View<E, S> {
    /// It is the desk's, and may append entries.
    pub desk: bool,
    /// It is a worker's.
    pub worker: bool,
    /// The ticket that it drew, and that wasn't served yet.
    pub ticket: Option<u64>,
    /// It has the turn, and the slot with the value is out with it.
    pub holds: bool,
    /// The entries that it has seen, the newest first.
    pub seen: LinkedList<E>,
    /// The number of its turns.
    pub turns: u64,
    /// What the turn that it has found.
    pub found: Option<Standing<E, S>>,
    /// Its last turn that ended.
    pub last: Option<LastTurn<E, S>>,
    /// At the desk's: the number of workers' passes that are out.
    pub out: u64,
}
