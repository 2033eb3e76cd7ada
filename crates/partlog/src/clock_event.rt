/// The greatest moment, in milliseconds.
pub const MOST_MOMENT: u64 = kbytes::MOST_MOMENT;

/// One entry of the clock's history.
#[derive(Clone, Copy, PartialEq, Eq)]
pub enum ClockEvent {
    /// The moment rose to this one.
    Tick { t: u64 },
    /// A call looked at the moment.
    Look { by: u32, seq: u32 },
}
