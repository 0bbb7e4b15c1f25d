//! What the lock asks of its value.
ghost use Rattle.std.specs.Prelude.{◌≡◌, List, length};

/// A value whose life is a list of entries, the newest first, and a state of plain data.
///
/// `stands` says for which list and state a value stands. It may be for several of each. No running program makes a
/// `State`: it is what contracts say of the value beside its entries.
pub trait Turned {
    /// One entry of the list.
    type Entry;
    /// What contracts see of the value beside the list.
    type State;

    ghost stands: { Self → List Self.Entry → Self.State → Type 0 };

    /// The number of entries of every list for which the value stands.
    fn fed(&self) -> u64
        ensures { (feed : List Self.Entry) (state : Self.State) → stands self.now feed state → result ≡ length feed };
}
