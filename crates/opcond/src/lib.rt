//! Delayed operations: what they need of the gauges, how far that is reached, and their deadline.
//!
//! The layer above may use `Op` and ask `tally`, `is_satisfied` and `is_overdue`. Gauges only rise, so what is satisfied
//! or overdue stays so.
#![tactic(auto)]

mod laws;
mod need;
mod numbers;
mod op;
mod reached;

pub use laws::{answerable_stays, one_part_changes, tally_rises};
pub use need::Need;
pub use numbers::{CAP_LIMIT, MOST_NEEDS};
pub use op::Op;
pub use reached::{is_overdue, is_satisfied, tally};
