//! The turns of one call of a pass, each with the point of its entry. The crate above accepts and completes requests by these.
//!
//! The point is put down before the turn is taken, and its place is filled in after it: so no entry is without its point, wherever memory
//! runs out.

mod accepting;
mod caller;
mod completing;
mod points;

pub use accepting::{fetch, put};
pub use caller::Caller;
pub use completing::{look, look_at_clock, read};
