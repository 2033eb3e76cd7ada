//! Threads share a queue, and each has a pass: where a link may go to another thread, the queue may be shared and its passes may go.
use crate::shared::queue::condition::Condition;
use crate::shared::queue::link_queue::LinkQueue;
use crate::shared::queue::numbered::Numbered;
use crate::shared::queue::queue_pass::QueuePass;

fn may_go<X: Send>(_value: &X) {}

fn may_be_shared<X: Sync>(_value: &X) {}

fn cross<L: Send, N: Condition<L>>(
    queue: &LinkQueue<L, N>,
    pass: &QueuePass<L>,
    item: &Numbered<L>,
) {
    may_be_shared(queue);
    may_go(queue);
    may_go(pass);
    may_go(item);
}
