/// A moment that was told.
#[derive(Clone, Copy, PartialEq, Eq, Drop)]
pub struct ToldMoment {
    /// In milliseconds.
    pub moment: u64,
    /// The number of the pass to which it was told first.
    pub by: u32,
}
