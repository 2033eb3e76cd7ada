/// A link with the number under which it was accepted.
#[derive(Clone, Copy, PartialEq, Eq, Drop)]
pub struct Numbered<L> {
    pub number: u64,
    pub link: L,
}
