//! Threads share a port, and each has a pass: where the port may go to another thread, so may the shared one and its passes.
use crate::Port;
use crate::shared::port::port_pass::PortPass;
use crate::shared::port::shared_port::SharedPort;

fn may_go<X: Send>(_value: &X) {}

fn may_be_shared<X: Sync>(_value: &X) {}

fn cross<P: Port + Send>(port: &SharedPort<P>, pass: &PortPass<P>) {
    may_be_shared(port);
    may_go(port);
    may_go(pass);
}
