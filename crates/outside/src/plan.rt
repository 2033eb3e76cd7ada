ghost use Rattle.std.specs.Prelude.{◌≡◌, ◌≤◌};
ghost use Rattle.outside.specs.Count.{one_more};
ghost use Rattle.outside.specs.Plan.{planned, is_due};

use crate::failed::Failed;
use kbytes::List;
use std::marker::Model;

/// Which calls of an object in memory are to fail.
#[derive(Drop)]
pub(crate) struct FaultPlan {
    fails: List<u64>,
    calls: u64,
    faults: u64,
}

impl Model for FaultPlan {
    ghost use Rattle.outside.specs.Count.{one_more};
    ghost use Rattle.outside.specs.Plan.{Plan};

    ghost Value = { Plan };

    ghost view = { λ p. record { fails = p.fails; calls = p.calls; faults = p.faults } };
}

impl FaultPlan {
    pub(crate) fn new(fails: List<u64>) -> FaultPlan
        ensures { result ≡ planned fails }
    {
        FaultPlan {
            fails,
            calls: 0,
            faults: 0,
        }
    }

    /// Counts a call, and answers whether it is to fail.
    pub(crate) fn is_due(&mut self) -> bool
        ensures due { result ≡ is_due self.old }
        ensures counted { self.new ≡ record self.old { calls = one_more self.old.calls } }
    {
        let is_due = self.fails.as_slice().contains(&self.calls);
        self.calls = self.calls.saturating_add(1);
        is_due
    }

    /// Counts a fault.
    pub(crate) fn fail(&mut self) -> Failed
        ensures counted { self.new ≡ record self.old { faults = one_more self.old.faults } }
        ensures later { self.old.faults ≤ self.new.faults }
    {
        self.faults = self.faults.saturating_add(1);
        Failed
    }
}
