ghost use Rattle.std.specs.Prelude.{◌≡◌, List, Option, ℕ, IfOk};
ghost use Rattle.outside.specs.Causes.{HasCause};
ghost use Rattle.outside.specs.NewLink.{IsNewLink};
ghost use Rattle.outside.specs.Told.{Gains};

use outside::{Failed, Link};

/// Makes links to peers, and takes each back once it was used.
pub trait Dial {
    type Link: Link;

    /// How often it has failed.
    ghost faults: { Self → ℕ };

    /// The port that was dialled last, and 0 before the first.
    ghost dialled: { Self → ℕ };

    /// The links that were retired, in order, each with the port that was dialled last before, where it tells them.
    ghost retired: { Self → Option (List (ℕ × Self.Link)) };

    /// Gives a new link to whoever listens at this port. After `Failed` it may be asked again.
    fn dial(&mut self, port: u16) -> Result<Self::Link, Failed>
        ensures link { IfOk result (λ link.
            IsNewLink (Self.Link.taken link) (Self.Link.written link) (Self.Link.faults link) (Self.Link.is_shut link)) }
        ensures dialled { dialled self.new ≡ port }
        ensures retired { retired self.new ≡ retired self.old }
        ensures cause { HasCause (faults self.old) (faults self.new) result };

    /// Takes a link back. It has no fault.
    fn retire(&mut self, link: Self::Link)
        ensures retired { Gains (retired self.old) (retired self.new) (dialled self.old, link) }
        ensures dialled { dialled self.new ≡ dialled self.old }
        ensures faults { faults self.new ≡ faults self.old };
}
