use partlog::Who;

/// Who asks a partition's log, and the clock's moment as it knows it, in milliseconds.
#[derive(Clone, Copy)]
pub struct Visitor {
    pub who: Who,
    pub moment: u64,
}
