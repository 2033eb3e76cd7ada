/// What each worker passes before it plays a line. A test uses it to hold workers up.
pub trait Gate {
    /// The worker's number, and the place of the line in the list, each counted from 0.
    fn pass(&self, worker_number: u32, line: u32);
}

/// Holds nobody up.
#[derive(Clone, Copy)]
pub struct NoGate;

impl Gate for NoGate {
    fn pass(&self, _worker: u32, _line: u32) {}
}
