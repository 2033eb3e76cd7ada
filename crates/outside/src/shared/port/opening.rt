/// What an opening answers.
#[derive(Clone, Copy, PartialEq, Eq)]
pub enum Opening {
    /// The port is open under the number asked for.
    Opened,
    /// The port failed, and has counted it.
    Faulted,
    /// Memory ran out. The port wasn't asked, and nothing was entered.
    NoMemory,
}
