ghost use Rattle.std.specs.Prelude.{◌≡◌, ℕ, List, length};

/// What may be behind a turn lock: a value with a history.
pub trait Kept {
    /// One entry of the history. The program need make no value of it.
    type Entry;

    // The history, the oldest entry first.
    ghost entries: { Self → List Self.Entry };

    // The number of the pass that an entry names.
    ghost by: { Self.Entry → ℕ };

    // The value's name. It is plain data, and the lock keeps it.
    ghost name: { Self → List ℕ };

    /// The number of entries.
    fn count(&self) -> u64
        ensures { result ≡ length (entries self.now) };
}
