//! Threads share a clock, and each has a pass: where the clock may go to another thread, so may the shared one and its passes.
use crate::Clock;
use crate::shared::clock::clock_pass::ClockPass;
use crate::shared::clock::shared::Shared;

fn may_go<X: Send>(_value: &X) {}

fn may_be_shared<X: Sync>(_value: &X) {}

fn cross<C: Clock + Send>(clock: &Shared<C>, pass: &ClockPass<C>) {
    may_be_shared(clock);
    may_go(clock);
    may_go(pass);
}
