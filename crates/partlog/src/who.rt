/// The call that made an entry of a history.
#[derive(Clone, Copy, PartialEq, Eq)]
pub struct Who {
    /// The number of the pass.
    pub by: u32,
    /// The number of the call among those of the pass.
    pub seq: u32,
}
