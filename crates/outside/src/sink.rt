ghost use Rattle.std.specs.Prelude.{List, Option, ℕ, ◌<◌, length, IfOk};
ghost use Rattle.std.specs.Io.{WritesAtMost};
ghost use Rattle.std.specs.Io.KnownBytes.{WriteAppends};
ghost use Rattle.outside.specs.Causes.{HasCause};

use crate::failed::Failed;

/// Bytes that go out, as to a file or a pipe.
pub trait Sink {
    /// The bytes that were written, where it tells them.
    ghost written: { Self → Option (List ℕ) };

    /// How often it has failed.
    ghost faults: { Self → ℕ };

    /// Writes the front of `part`, and answers how many bytes it took: at least one of a part that isn't empty.
    /// After `Failed` nothing more was written.
    fn write(&mut self, part: &[u8]) -> Result<usize, Failed>
        ensures bound { WritesAtMost result part.now }
        ensures some { IfOk result (λ n. 0 < length part.now → 0 < n) }
        ensures bytes { WriteAppends (written self.old) (written self.new) result part.now }
        ensures cause { HasCause (faults self.old) (faults self.new) result };
}
