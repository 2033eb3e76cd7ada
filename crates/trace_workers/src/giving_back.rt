//! Memory is given back while the work goes on.

use std::thread;
use std::thread::Threads;

/// Gives a value back in a thread of its own, for which nobody waits, or here if none can be started. It is for values with many pieces of memory.
pub fn give_back<R: Threads, T: Send + Drop + 'static>(rt: &R, value: T) {
    drop(thread::spawn(rt, move || drop(value)));
}
