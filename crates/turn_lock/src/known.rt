//! What passes know. No value of these types is made.
use std::collections::LinkedList;

/// Where a pass is in the line.
pub enum Stage {
    /// It has no ticket.
    Idle,
    /// Its ticket isn't served yet.
    Waits(u64),
    /// It has the turn, by this ticket.
    Has(u64),
    /// Its ticket is past the last that is served.
    Late,
}

/// What one pass knows.
pub struct Known<E> {
    /// Its number among the lock's passes, from 0.
    pub number: u64,
    /// The lock's name.
    pub name: LinkedList<u64>,
    /// The history as it saw it last.
    pub seen: LinkedList<E>,
    /// The entries that it added itself.
    pub mine: LinkedList<E>,
    pub stage: Stage,
}
