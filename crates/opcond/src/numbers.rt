//! The numbers that bound an operation.

/// The most needs that an operation has.
pub const MOST_NEEDS: usize = 64;

/// A cap and a least tally are below this.
pub const CAP_LIMIT: u64 = 1 << 31;
