use std::error::Error;
use std::fmt;

/// A read, a write, an open or an accept failed outside. The object that was asked has counted it.
#[derive(Clone, Copy, Debug, PartialEq, Eq)]
pub struct Failed;

impl fmt::Display for Failed {
    ghost use Rattle.std.specs.Prelude.{codes, Some};

    ghost output = { λ _. Some (codes "a read, a write, an open or an accept failed") };

    fn fmt<W: fmt::Write>(&self, f: &mut fmt::Formatter<W>) -> fmt::Result {
        write!(f, "a read, a write, an open or an accept failed")
    }
}

impl Error for Failed {}
