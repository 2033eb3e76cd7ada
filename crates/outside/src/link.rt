ghost use Rattle.std.specs.Prelude.{◌≡◌, List, Option, ℕ, ◌<◌, Bool, true, length, IfOk};
ghost use Rattle.std.specs.Io.{ReadsAtMost, WritesAtMost};
ghost use Rattle.std.specs.Io.KnownBytes.{ReadConsumes, WriteAppends};
ghost use Rattle.outside.specs.Alike.{ShowsAlike};
ghost use Rattle.outside.specs.Causes.{HasCause};
ghost use Rattle.outside.specs.Told.{ReadAppends};

use crate::failed::Failed;

/// A connection with a peer, read and written.
pub trait Link {
    /// The bytes that were taken from it, where it tells them.
    ghost taken: { Self → Option (List ℕ) };

    /// The bytes that are left to read, where it tells them.
    ghost left: { Self → Option (List ℕ) };

    /// The bytes that were written to it, where it tells them.
    ghost written: { Self → Option (List ℕ) };

    /// How often it has failed.
    ghost faults: { Self → ℕ };

    /// Whether it was shut.
    ghost is_shut: { Self → Bool };

    /// Reads into the front of `into`, and answers how many bytes it gave. Into a slice that isn't empty it gives 0
    /// only at the end of the input. After `Failed` the bytes left are as before. A link that tells what was taken from it, or what is left,
    /// goes on telling it, and one that doesn't goes on not to.
    fn read(&mut self, into: &mut [u8]) -> Result<usize, Failed>
        ensures bound { ReadsAtMost result into.new }
        ensures bytes { ReadConsumes (left self.old) (left self.new) result into.new }
        ensures taken { ReadAppends (taken self.old) (taken self.new) result into.new }
        ensures taken_told { ShowsAlike (taken self.old) (taken self.new) }
        ensures left_told { ShowsAlike (left self.old) (left self.new) }
        ensures written { written self.new ≡ written self.old }
        ensures shut { is_shut self.new ≡ is_shut self.old }
        ensures cause { HasCause (faults self.old) (faults self.new) result };

    /// Writes the front of `part`, and answers how many bytes it took: at least one of a part that isn't empty.
    /// After `Failed` nothing more was written. A link that tells what was written to it goes on telling it, and one that doesn't goes on not to.
    fn write(&mut self, part: &[u8]) -> Result<usize, Failed>
        ensures bound { WritesAtMost result part.now }
        ensures some { IfOk result (λ n. 0 < length part.now → 0 < n) }
        ensures bytes { WriteAppends (written self.old) (written self.new) result part.now }
        ensures written_told { ShowsAlike (written self.old) (written self.new) }
        ensures taken { taken self.new ≡ taken self.old }
        ensures left { left self.new ≡ left self.old }
        ensures shut { is_shut self.new ≡ is_shut self.old }
        ensures cause { HasCause (faults self.old) (faults self.new) result };

    /// Ends the connection in both directions, so that the peer needn't wait. Nothing else changes, and it has no fault.
    fn shut(&mut self)
        ensures shut { is_shut self.new ≡ true }
        ensures taken { taken self.new ≡ taken self.old }
        ensures left { left self.new ≡ left self.old }
        ensures written { written self.new ≡ written self.old }
        ensures faults { faults self.new ≡ faults self.old };
}
