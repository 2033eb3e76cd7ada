//! What several threads share of the world. Each thread has a pass of each, and what a pass knows of the whole stays so, whatever the others
//! do. None of it knows of brokers or sessions.
//!
//! `clock` and `port` are a clock and a port behind a turn lock, with the history of what was told to whom; `queue` is the bounded queue through
//! which links pass from the thread that accepted them to the one that serves them.

pub mod clock;
pub mod port;
pub mod queue;
