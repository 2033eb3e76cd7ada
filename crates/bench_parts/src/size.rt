ghost use Rattle.std.specs.Prelude.{◌≤◌};

/// How much is run.
#[derive(Clone, Copy, PartialEq, Eq)]
pub enum Size {
    /// Enough to see that it runs.
    Tiny,
    /// Enough to measure.
    Whole,
}

impl Size {
    /// That many steps, or the few of a tiny run.
    pub fn steps(self, whole: u32) -> u32
        ensures { result ≤ whole }
    {
        match self {
            Size::Tiny => whole.min(100),
            Size::Whole => whole,
        }
    }
}
