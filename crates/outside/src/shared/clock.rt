//! One clock for several threads, which reports what it told to whom. It knows nothing of brokers or links.
//!
//! A `Shared` has a clock behind a turn lock, with the list of the moments that were told: each stands there once, with the pass to which
//! it was told first. The layer above takes its moments from `now`, and knows by `told` the greatest that a pass was told. The clock comes
//! back at the close, and has then given a moment no less than any pass was told: so whatever was done at a told moment was not done ahead
//! of the clock.

mod clock_desk;
mod clock_pass;
mod crossing;
mod kept;
mod making;
mod shared;
mod told_moment;

pub use clock_desk::ClockDesk;
pub use clock_pass::ClockPass;
pub use shared::Shared;
pub use told_moment::ToldMoment;
