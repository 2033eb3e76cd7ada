//! What the queue under a rule knows of a pass. No value of this type is made.
use crate::shared::queue::numbered::Numbered;
use std::collections::LinkedList;

/// A pass's parts of the right to know the whole, and what it put and took.
pub struct Hand<L> {
    pub parts: u64,
    pub put: LinkedList<Numbered<L>>,
    pub taken: LinkedList<Numbered<L>>,
}
