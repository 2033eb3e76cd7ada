//! Lanes go to threads of their own, and share their hall: where port, links and clock may go to another thread, so may these.
use crate::hall::Hall;
use crate::lane::Lane;
use outside::{Clock, Port};

fn may_go<X: Send>(_value: &X) {}

fn may_be_shared<X: Sync>(_value: &X) {}

fn cross<P: Port + Send, C: Clock + Send>(hall: &Hall<P, C>, lane: &Lane<P, C>)
where
    P::Link: Send,
{
    may_be_shared(hall);
    may_go(lane);
}
