use crate::Accepted;

/// What became of a partition whose log was asked, and the place of the entry.
#[derive(Clone, Copy)]
pub struct Entered {
    pub became: Accepted,
    /// The place of the entry in the partition's history, counted from 0.
    pub place: u64,
}
