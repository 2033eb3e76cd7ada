//! How full a shard gets before it is purged, and how far ahead a timer may be.
/// A shard with this many watchers or more is purged before more are listed.
pub(crate) const PURGE_SIZE: u32 = 500;

/// How far ahead a timer may be in the wheels, in milliseconds.
pub(crate) const FARTHEST: u64 = (1 << 31) - 1;
