ghost use Rattle.std.specs.Prelude.{List, Option, ℕ};
ghost use Rattle.std.specs.Io.{ReadsAtMost};
ghost use Rattle.std.specs.Io.KnownBytes.{ReadConsumes};
ghost use Rattle.outside.specs.Causes.{HasCause};

use crate::failed::Failed;

/// Bytes that come in, as a file or a pipe.
pub trait Source {
    /// The bytes that are left, where it tells them.
    ghost left: { Self → Option (List ℕ) };

    /// How often it has failed.
    ghost faults: { Self → ℕ };

    /// Reads into the front of `into`, and answers how many bytes it gave. Into a slice that isn't empty it gives 0
    /// only at the end of the input. After `Failed` the bytes left are as before.
    fn read(&mut self, into: &mut [u8]) -> Result<usize, Failed>
        ensures bound { ReadsAtMost result into.new }
        ensures bytes { ReadConsumes (left self.old) (left self.new) result into.new }
        ensures cause { HasCause (faults self.old) (faults self.new) result };
}
