use crate::SharedLogs;

/// A call of a pass that takes turns: over which logs, its number among the calls of the pass, and the thread on which it may wait.
#[derive(Drop)]
pub struct Caller<'r, 'l, W> {
    pub rt: &'r W,
    pub logs: &'l SharedLogs,
    pub seq: u32,
}
