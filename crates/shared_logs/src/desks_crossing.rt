//! Checked where it compiles: threads may share a desk's lock, and lock and passes may go to other threads.
use crate::moment_desk::MomentDesk;
use crate::part_desk::PartDesk;
use turn_lock::{TurnLock, TurnPass};

fn may_go<X: Send>(_value: &X) {}

fn may_be_shared<X: Sync>(_value: &X) {}

fn part_crosses(lock: &TurnLock<PartDesk>, pass: &TurnPass<PartDesk>) {
    may_be_shared(lock);
    may_go(lock);
    may_go(pass);
}

fn moment_crosses(lock: &TurnLock<MomentDesk>, pass: &TurnPass<MomentDesk>) {
    may_be_shared(lock);
    may_go(lock);
    may_go(pass);
}
