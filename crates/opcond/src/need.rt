/// One need of an operation: what the gauge has past `start` counts, but no more than `cap`.
#[derive(Clone, Copy, PartialEq, Eq)]
pub struct Need {
    pub gauge: u32,
    pub start: u64,
    pub cap: u64,
}
