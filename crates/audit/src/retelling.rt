//! Prints what each session was sent, computed again from the account of a run.
//!
//! An account keeps no replies. A reply follows from the call's frame, the points of its entries and the partitions as they were
//! there, so the layer above can print what each session was sent once a run has ended.

mod accepting;
mod past;
mod playing;
mod promises;
mod reply;
mod rereading;
mod retold;
mod telling;

pub use accepting::{Scene, retell};
pub use past::{Past, pasts_of};
pub use promises::lawful_parts_play_again;
pub use reply::reply_to;
pub use retold::Retold;
pub use telling::print_workers;
