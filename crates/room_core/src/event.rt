//! The eighteen kinds of step that threads make on the room. `CoreState::step` makes them as code; `specs/Step.antt` says when
//! each is allowed and what it changes.
/// How an operation was won: its tally was reached, or its deadline came.
#[derive(Clone, Copy, PartialEq, Eq)]
pub enum How {
    Satisfied,
    Expired,
}

/// The party that makes a check: a pass, as the owner of its operation, or a scanner.
#[derive(Clone, Copy)]
pub enum Party {
    Pass(u32),
    Scanner(u32),
}

/// One atomic step of one thread on one word.
#[derive(Clone, Copy)]
pub enum CoreEvent {
    /// The gauge's source stores its value.
    Store { gauge: u32, value: u64 },
    /// A pass asks that the gauge be scanned up to a value that it has read.
    Ask { pass: u32, gauge: u32, value: u64 },
    /// The gauge's source sees whether a scan was asked for up to what it stored.
    Hush { gauge: u32 },
    /// A scanner sees up to which value of its gauge it is asked to scan.
    Hear { scanner: u32, gauge: u32 },
    /// A scanner begins a scan of its gauge, up to what it has heard.
    Begin { scanner: u32, gauge: u32 },
    /// A pass sees whether a scan was begun up to what it owes.
    Relieve { pass: u32, gauge: u32 },
    /// A pass writes a word of its operation's description.
    Describe { pass: u32, at: u32, word: u64 },
    /// A pass opens the operation that it has described.
    Open { pass: u32 },
    /// A scanner looks at a pass's session word.
    Meet { scanner: u32, pass: u32 },
    /// A scanner reads a word of the description of the pass that it has met.
    Learn { scanner: u32, pass: u32, at: u32 },
    /// A scanner lists the operation that it has met under a need's gauge, or under the clock, and marks that.
    Mark { scanner: u32, pass: u32, at: u32 },
    /// A pass sees whether its operation was listed.
    Marked { pass: u32, at: u32 },
    /// A value is read.
    Read { who: Party, gauge: u32 },
    /// A value is read that ends a check where the operation isn't answerable.
    Leave { who: Party, pass: u32, gauge: u32 },
    /// A check that found the operation answerable exchanges its session word.
    Win { who: Party, pass: u32, how: How },
    /// A pass looks at its own session word.
    Peek { pass: u32 },
    /// A pass takes the end of its operation, won by itself or by a scanner, and is idle again.
    Idle { pass: u32 },
    /// Seats are split or joined.
    Part,
}
