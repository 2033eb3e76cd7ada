//! The numbers of the wheels.

/// How many wheels there are, each with a level.
pub const LEVELS: u32 = 8;

/// How many buckets a wheel has. A bucket spans as many of the level below, so a whole wheel of them.
pub(crate) const BUCKETS: u64 = 20;

/// How many buckets all wheels have.
pub(crate) const ALL_BUCKETS: usize = 160;
