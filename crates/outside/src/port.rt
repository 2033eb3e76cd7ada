ghost use Rattle.std.specs.Prelude.{◌≡◌, List, Option, ℕ, Bool, Some, OnOk, OnErr, IfOk, IfSome};
ghost use Rattle.outside.specs.Accepting.{Accepts};
ghost use Rattle.outside.specs.Causes.{HasCause};
ghost use Rattle.outside.specs.Count.{one_more};
ghost use Rattle.outside.specs.NewLink.{IsNewLink};
ghost use Rattle.outside.specs.Told.{Gains};

use crate::failed::Failed;
use crate::link::Link;

/// Gives links to peers, and takes each back once it was served.
pub trait Port {
    type Link: Link;

    /// How often it has failed.
    ghost faults: { Self → ℕ };

    /// The number with which it was opened.
    ghost opened_with: { Self → Option ℕ };

    /// How many links it gave.
    ghost given: { Self → ℕ };

    /// Whether it answered that no more links come.
    ghost is_ended: { Self → Bool };

    /// How many links were retired.
    ghost retired_count: { Self → ℕ };

    /// The retired links with their numbers, in the order in which they were retired, where it tells them.
    ghost retired: { Self → Option (List (ℕ × Self.Link)) };

    /// Opens it under a number. After `Failed` it has the number that it had, if any.
    fn open(&mut self, number: u16) -> Result<(), Failed>
        ensures opened { OnOk result (opened_with self.new ≡ Some number) }
        ensures failed { OnErr result (opened_with self.new ≡ opened_with self.old) }
        ensures given { given self.new ≡ given self.old }
        ensures ended { is_ended self.new ≡ is_ended self.old }
        ensures count { retired_count self.new ≡ retired_count self.old }
        ensures retired { retired self.new ≡ retired self.old }
        ensures cause { HasCause (faults self.old) (faults self.new) result };

    /// Gives the next link, which is new, or `None` only where no more links come. After `Failed` it may be asked again.
    fn accept(&mut self) -> Result<Option<Self::Link>, Failed>
        ensures accepts { Accepts (given self.old) (given self.new) (is_ended self.old) (is_ended self.new) result }
        ensures link { IfOk result (λ answer. IfSome answer (λ link.
            IsNewLink (Self.Link.taken link) (Self.Link.written link) (Self.Link.faults link) (Self.Link.is_shut link))) }
        ensures opened { opened_with self.new ≡ opened_with self.old }
        ensures count { retired_count self.new ≡ retired_count self.old }
        ensures retired { retired self.new ≡ retired self.old }
        ensures cause { HasCause (faults self.old) (faults self.new) result };

    /// Takes a link back under its number. It has no fault.
    fn retire(&mut self, number: u64, link: Self::Link)
        ensures count { retired_count self.new ≡ one_more (retired_count self.old) }
        ensures retired { Gains (retired self.old) (retired self.new) (number, link) }
        ensures opened { opened_with self.new ≡ opened_with self.old }
        ensures given { given self.new ≡ given self.old }
        ensures ended { is_ended self.new ≡ is_ended self.old }
        ensures faults { faults self.new ≡ faults self.old };
}
