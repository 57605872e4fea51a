//! What a seat knows of the history. No value of these types is made.
use std::collections::LinkedList;

/// One turn of the history.
pub struct Entry<E, O> {
    /// The number of the caller.
    pub number: u64,
    pub event: E,
    pub outcome: O,
    /// The low epoch of the state after the turn.
    pub low: u32,
    /// The high epoch of the state after the turn.
    pub high: u32,
}

/// What a seat knows, of a gate round a state `S` with events `E` and outcomes `O`. Lists of at most one item stand for what a
/// seat has only at times.
pub struct View<S, E, O> {
    /// The state that the gate was given; none for a seat that was joined into another.
    pub opening: LinkedList<S>,
    /// How many numbers the gate has.
    pub seats: u32,
    /// The numbers that the seat holds.
    pub numbers: LinkedList<u64>,
    /// The beginning of the history that it has seen.
    pub seen: LinkedList<Entry<E, O>>,
    /// The places of its own calls in the history.
    pub calls: LinkedList<u64>,
    /// The ticket that it has drawn, while it waits or has the state.
    pub tickets: LinkedList<u64>,
    /// The state after the last entry, while it has the state.
    pub holds: LinkedList<S>,
    /// Whether the epochs after its last turn still have to be posted.
    pub owes: bool,
    /// In the midst of a join, the shorter of the two seen histories.
    pub joined: LinkedList<Entry<E, O>>,
}
