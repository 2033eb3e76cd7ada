//! What the functions that carry out a call hand to one another: `serve` and `collect` make it, and `complete` is the last that takes it.
use crate::parked::Parked;
use kwire::RequestView;
use purgatory::Done;

/// The call that is carried out now: what it may wait with, its number among the calls of its pass, its request, and whether its reply is
/// to be sent.
#[derive(Drop)]
pub(crate) struct CurrentCall<'w, 'r, 'f, W> {
    pub rt: &'w W,
    pub seq: u32,
    pub request: &'r RequestView<'f>,
    pub is_sent: bool,
}

/// A request that waited and was won: what is kept of it, how and by whom it was won, and whether its reply is to be sent.
#[derive(Drop)]
pub(crate) struct Won<'a> {
    pub parked: &'a Parked,
    pub done: Done,
    pub is_sent: bool,
}
