//! Each worker does its part in a thread of its own: a worker may go to one.
use crate::worker::Worker;

fn may_go<X: Send>(_value: &X) {}

fn cross(worker: &Worker) {
    may_go(worker);
}
