use kanswer::Visitor;
use purgatory::Room;
use std::alloc::Global;

/// A visit to a desk in a turn of its lock: who comes, and at which moment of the clock; the room whose gauges may rise; and the thread that
/// raises them.
#[derive(Drop)]
pub struct Visit<'r, 'm, W> {
    pub rt: &'r W,
    pub alloc: Global,
    pub room: &'m Room,
    pub visitor: Visitor,
}
