/// What an accept answers.
#[derive(Drop)]
pub enum Accepting<L> {
    /// The next link, and its number, which counts from 0.
    Link { number: u64, link: L },
    /// As many links were given as there may be. The port wasn't asked.
    Full,
    /// No more links come: the port said so now or before.
    Ended,
    /// An open or an accept failed, now or before.
    Faulted,
    /// Memory ran out. The port wasn't asked, and nothing was entered.
    NoMemory,
}
