ghost use Rattle.std.specs.Prelude.{◌≡◌, ◌≤◌, ◌↔◌, length, IsTrue};
ghost use Rattle.opcond.specs.Tally.{IsSatisfied, IsOverdue, tally as tally_of};

use crate::op::Op;

/// The tally of an operation at these values, one for each need in order.
pub fn tally(op: &Op, values: &[u64]) -> u64
    requires { length values.now ≡ length op.now.needs }
    ensures { result ≡ tally_of op.now.needs values.now }
{
    let needs = op.needs();
    let mut total = 0;
    for i in 0..needs.len() {
        let past = values[i].saturating_sub(needs[i].start);
        total += past.min(needs[i].cap);
    }
    total
}

/// The tally is at least the operation's least.
pub fn is_satisfied(op: &Op, values: &[u64]) -> bool
    requires { length values.now ≡ length op.now.needs }
    ensures { IsTrue result ↔ IsSatisfied op.now values.now }
{
    op.min() <= tally(op, values)
}

/// The moment, in milliseconds, is at the deadline or past it.
pub fn is_overdue(op: &Op, now: u64) -> bool
    ensures { IsTrue result ↔ IsOverdue op.now now }
{
    op.deadline() <= now
}
