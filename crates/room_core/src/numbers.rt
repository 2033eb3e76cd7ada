//! The numbers that bound a room.

/// The most gauges that a room has, the clock among them.
pub const MOST_GAUGES: u32 = 193;

/// The most passes that a room has.
pub const MOST_PASSES: u32 = 80;

/// The most needs that an operation has.
pub const MOST_NEEDS: u64 = 64;

/// The number of shards in a room with all scanners.
pub const SHARDS: u32 = 16;

/// The most gauges that one of these shards has.
pub const SHARD_GAUGES: u32 = 12;

/// The mark of the clock's listing. The marks of the needs are numbered from 0.
pub const CLOCK_MARK: u32 = 64;

/// A mark for each of 64 needs, and the clock's.
pub const MARKS: u32 = 65;

/// The number of the clock's scanner.
pub const CLOCK_SCANNER: u32 = 16;

/// Scanners have the numbers below this one. As a winner, a scanner has its own number, and pass p has this one plus p.
pub const SCANNER_NUMBERS: u32 = 17;

/// The number of phases of a session word. Its phase is the remainder when its number is divided by this.
pub const PHASES: u64 = 4;

/// The number of the phase `Open`.
pub const OPEN_PHASE: u64 = 1;

/// Caps and least tallies are below this.
pub(crate) const CAP_LIMIT: u64 = 1 << 31;

/// The last generation: a pass that has reached it opens no operation any more.
pub(crate) const LAST_GENERATION: u32 = u32::MAX;
