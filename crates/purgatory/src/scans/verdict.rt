/// The result of a check of an operation.
pub(crate) enum Verdict {
    /// The words that were learned are no description: the pass has described another operation meanwhile.
    Unclear,
    /// The operation isn't answerable: the check was left.
    Waits,
    /// It was answerable: the scanner has tried to win it.
    Over,
}
