use crate::fault::Fault;
use std::fmt;
use std::time::{Clock, Duration, Instant};

/// What each step took, in picoseconds, and what the steps came to. That is printed, so that no compiler leaves them out.
#[derive(Clone, Copy)]
pub struct Cost {
    pub each: u64,
    pub came_to: u64,
}

/// What one step took, beside its baseline.
#[derive(Drop)]
pub struct Figure {
    pub name: String,
    pub ours: Cost,
    pub baseline: &'static str,
    pub theirs: Cost,
}

/// What is longer than a million seconds counts as that.
pub fn nanoseconds(spent: Duration) -> u64 {
    spent.as_secs().min(1_000_000) * 1_000_000_000 + u64::from(spent.subsec_nanos())
}

/// Makes that many steps, and times them.
pub fn time<R: Clock, F: FnOnce() -> Result<u64, Fault>>(
    rt: &R,
    steps: u64,
    make: F,
) -> Result<Cost, Fault>
    requires { F.IsAlwaysCallable make }
{
    let start = Instant::now(rt)?;
    let came_to = make()?;
    let spent = nanoseconds(start.elapsed(rt)?);
    Ok(Cost {
        each: spent.saturating_mul(1_000) / steps.max(1),
        came_to,
    })
}

/// A number of thousandths, with two digits after the point.
#[derive(Clone, Copy)]
struct Decimal(u64);

impl fmt::Display for Decimal {
    fn fmt<W: fmt::Write>(&self, f: &mut fmt::Formatter<W>) -> fmt::Result {
        write!(f, "{}.{:02}", self.0 / 1_000, self.0 % 1_000 / 10)
    }
}

impl fmt::Display for Figure {
    fn fmt<W: fmt::Write>(&self, f: &mut fmt::Formatter<W>) -> fmt::Result {
        let times = self.theirs.each.saturating_mul(1_000) / self.ours.each.max(1);
        write!(
            f,
            "{}: {} ns, {} {} ns, {} times as fast",
            self.name,
            Decimal(self.ours.each),
            self.baseline,
            Decimal(self.theirs.each),
            Decimal(times)
        )
    }
}
