/// Where a batch of a log begins.
#[derive(Clone, Copy, PartialEq, Eq)]
pub(crate) struct BatchStart {
    /// The offset of its first record.
    pub(crate) base: u64,
    /// The place of its first byte in the log.
    pub(crate) place: u64,
}
