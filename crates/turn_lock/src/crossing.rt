//! A lock may be shared by threads and go to another one, and so may each of its passes, where the value may go to
//! another thread.
use crate::kept::Kept;
use crate::lock::TurnLock;
use crate::pass::TurnPass;

fn may_go<X: Send>(_value: &X) {}

fn may_be_shared<X: Sync>(_value: &X) {}

fn cross<T: Kept + Send>(lock: &TurnLock<T>, pass: &TurnPass<T>) {
    may_be_shared(lock);
    may_go(lock);
    may_go(pass);
}
