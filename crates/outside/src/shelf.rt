//! The links that a port in memory took back. To take one back must not fail, so it takes no memory: each link brings the box in which
//! the port then puts those that came before it.
ghost use Rattle.std.specs.Prelude.{◌≡◌, ℕ, [], ◌∷◌, ◌++◌, MatchOption};

use crate::ends::Ends;
use std::marker::Model;
use std::mem;

/// Links that were retired, with their numbers.
#[cycle(shelf)]
pub(crate) struct Shelf {
    top: Top,
}

// The link that was retired last, and below it those before.
#[cycle(shelf)]
#[derive(Drop)]
enum Top {
    Bare,
    Link(u64, Ends, Box<Shelf>),
}

impl Model for Shelf {
    ghost use Rattle.std.specs.Prelude.{List, ℕ, length};
    ghost use Rattle.outside.specs.Wire.{Wire};

    ghost Value = { List (ℕ × Wire) };

    ghost use Rattle.outside.specs.Chain.{links_below};

    ghost view = { λ s. links_below s.top };

    ghost size = { length };

    ghost use Rattle.std.proofs.Common.{arith, length-append};

    ghost size_decreases = { λ a h. Prim.grind (arith, length-append) };
}

// As a loop, since there may be more links than a stack has room for calls.
impl Drop for Shelf {
    fn drop(mut self) {
        loop {
            let Shelf { top } = self;
            match top {
                Top::Bare => return,
                Top::Link(_, link, below) => {
                    drop(link);
                    self = Box::into_inner(below);
                }
            }
        }
    }
}

impl Shelf {
    pub(crate) fn new() -> Shelf
        ensures { result ≡ [] }
    {
        Shelf { top: Top::Bare }
    }

    /// Puts a link at the end. The box gets the links before it, whatever was in it.
    pub(crate) fn put(&mut self, number: u64, link: Ends, mut place: Box<Shelf>)
        ensures { self.new ≡ self.old ++ (number, link) ∷ [] }
    {
        *place = mem::replace(self, Shelf::new());
        self.top = Top::Link(number, link, place);
    }

    /// Takes the last link off, with a box in which nothing is.
    pub(crate) fn pop(&mut self) -> Option<(u64, Ends, Box<Shelf>)>
        ensures { MatchOption result ((self.old ≡ []) × (self.new ≡ []))
            (λ last. self.old ≡ self.new ++ (last.0, last.1) ∷ []) }
    {
        match mem::replace(&mut self.top, Top::Bare) {
            Top::Bare => None,
            Top::Link(number, link, mut place) => {
                *self = mem::replace(&mut *place, Shelf::new());
                Some((number, link, place))
            }
        }
    }
}
