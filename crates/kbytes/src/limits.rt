//! Limits of crates that don't know each other: each of them names them again for its own contracts.

/// The greatest moment of a clock, in milliseconds: 10^15.
pub const MOST_MOMENT: u64 = 1_000_000_000_000_000;

/// The most sessions of one run. They are numbered from 0.
pub const MOST_SESSIONS: u32 = 64;
