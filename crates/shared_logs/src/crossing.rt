//! Checked where it compiles: threads may share the logs, and logs and passes may go to other threads.
use crate::logs::SharedLogs;
use crate::pass::LogPass;

fn may_go<X: Send>(_value: &X) {}

fn may_be_shared<X: Sync>(_value: &X) {}

fn cross(logs: &SharedLogs, pass: &LogPass) {
    may_be_shared(logs);
    may_go(logs);
    may_go(pass);
}
