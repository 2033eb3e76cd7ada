//! That a broker may be shared by threads and go to another one, and that a pass may go to another thread. Nobody calls these functions.
use crate::broker::Broker;
use crate::pass::Pass;

fn may_go<X: Send>(_value: &X) {}

fn may_be_shared<X: Sync>(_value: &X) {}

fn cross(broker: &Broker, pass: &Pass) {
    may_be_shared(broker);
    may_go(broker);
    may_go(pass);
}
