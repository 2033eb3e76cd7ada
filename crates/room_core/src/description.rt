//! The words of an operation's description: three of the whole, and then three of each need.

/// The least tally.
pub const LEAST_WORD: u32 = 0;

/// The deadline.
pub const DEADLINE_WORD: u32 = 1;

/// The number of needs.
pub const NEEDS_WORD: u32 = 2;

/// The first need's gauge. That of need `i` is `NEED_WORDS * i` words further on, and so are its start and its cap.
pub const GAUGE_WORD: u32 = 3;

/// The first need's start.
pub const START_WORD: u32 = 4;

/// The first need's cap.
pub const CAP_WORD: u32 = 5;

/// How many words each need has.
pub const NEED_WORDS: u32 = 3;

/// How many words a description has: those of the whole, and of 64 needs.
pub const DESCRIPTION_WORDS: u32 = 195;
