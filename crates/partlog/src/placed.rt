/// Where a batch was appended.
#[derive(Clone, Copy, PartialEq, Eq)]
pub struct Placed {
    /// The offset of its first record.
    pub base: u64,
    /// The place of its entry in the history, counted from 0.
    pub place: u64,
}
