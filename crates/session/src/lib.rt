//! A session over a link: from the bytes that come to the bytes that go.
//!
//! [`serve_session`] serves one connection on a pass of the broker that threads share: it reads frames from the link, handles each as one
//! call, writes each reply whole, and waits where a request waits. Whoever accepts connections calls it once for each, and keeps the pass
//! and the seat of the clock for the next one.
//!
//! The clock is a [`Shared`] of `outside`, which threads share and which reports what it told to whom.
#![tactic(auto)]

mod answers;
mod intake;
mod served;

pub use intake::MOST_READ;
pub use outside::shared::clock::{ClockPass, Shared};
pub use served::serve_session;
