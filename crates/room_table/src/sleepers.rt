//! How many passes sleep, so that a win makes no system call where nobody does. A sleeper first counts itself, then looks at its
//! session word, and then sleeps; a winner first exchanges the word, and then looks whether anybody is counted. So at least one of
//! the two sees the other. No clause speaks of this.
use std::sync::atomic::{AtomicU64, Ordering};

// Passes whose numbers agree in the last four bits are counted together.
const ROWS: u32 = 16;

#[derive(Drop)]
pub(crate) struct Sleepers {
    rows: [AtomicU64; 16],
}

impl Sleepers {
    pub(crate) fn none() -> Sleepers {
        Sleepers {
            rows: [
                AtomicU64::new(0),
                AtomicU64::new(0),
                AtomicU64::new(0),
                AtomicU64::new(0),
                AtomicU64::new(0),
                AtomicU64::new(0),
                AtomicU64::new(0),
                AtomicU64::new(0),
                AtomicU64::new(0),
                AtomicU64::new(0),
                AtomicU64::new(0),
                AtomicU64::new(0),
                AtomicU64::new(0),
                AtomicU64::new(0),
                AtomicU64::new(0),
                AtomicU64::new(0),
            ],
        }
    }

    pub(crate) fn come(&self, pass: u32) {
        self.rows[(pass % ROWS) as usize].fetch_add(1, Ordering::SeqCst);
    }

    pub(crate) fn leave(&self, pass: u32) {
        self.rows[(pass % ROWS) as usize].fetch_sub(1, Ordering::SeqCst);
    }

    /// Whether this pass might be asleep. If false, it isn't.
    pub(crate) fn may_sleep(&self, pass: u32) -> bool {
        self.rows[(pass % ROWS) as usize].load(Ordering::SeqCst) != 0
    }
}
