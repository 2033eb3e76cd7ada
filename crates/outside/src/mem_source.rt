ghost use Rattle.std.specs.Prelude.{◌≡◌, ◌↔◌, ◌++◌, Some, IsTrue, IsErr, IfOk, OnOk, OnErr, min, length, take, drop};
ghost use Rattle.std.specs.Io.{ReadsAtMost};
ghost use Rattle.std.specs.Io.KnownBytes.{ReadConsumes};
ghost use Rattle.outside.specs.Causes.{HasCause};
ghost use Rattle.outside.specs.Plan.{planned, is_due, called, faulted};

use crate::failed::Failed;
use crate::intake::Intake;
use crate::plan::FaultPlan;
use crate::source::Source;
use kbytes::{Bytes, List};
use std::marker::Model;

/// A source in memory, for tests. It tells the bytes that are left.
#[derive(Drop)]
pub struct MemSource {
    input: Intake,
    plan: FaultPlan,
}

impl Model for MemSource {
    ghost use Rattle.outside.specs.Supply.{Supply};

    ghost Value = { Supply };

    ghost view = { λ s. record { left = s.input.left; plan = s.plan } };
}

impl MemSource {
    /// A source of these bytes, whose reads with the numbers in `fails`, counted from 0, fail. It takes no memory.
    pub fn new(bytes: Bytes, fails: List<u64>) -> MemSource
        ensures left { result.left ≡ bytes }
        ensures plan { result.plan ≡ planned fails }
    {
        MemSource {
            input: Intake::new(bytes),
            plan: FaultPlan::new(fails),
        }
    }
}

impl Source for MemSource {
    ghost left = { λ s. Some s.left };

    ghost faults = { λ s. s.plan.faults };

    /// Fails exactly where the plan says so. Else it gives as many of the bytes left as fit.
    fn read(&mut self, into: &mut [u8]) -> Result<usize, Failed>
        ensures bound { ReadsAtMost result into.new }
        ensures bytes { ReadConsumes (Some self.old.left) (Some self.new.left) result into.new }
        ensures cause { HasCause self.old.plan.faults self.new.plan.faults result }
        ensures fails { IsErr result ↔ IsTrue (is_due self.old.plan) }
        ensures count { IfOk result (λ n. n ≡ min (length self.old.left) (length into.old)) }
        ensures given { IfOk result (λ n. into.new ≡ take n self.old.left ++ drop n into.old) }
        ensures untouched { OnErr result (into.new ≡ into.old) }
        ensures called { OnOk result (self.new.plan ≡ called self.old.plan) }
        ensures faulted { OnErr result (self.new.plan ≡ faulted self.old.plan) }
    {
        if self.plan.is_due() {
            return Err(self.plan.fail());
        }
        Ok(self.input.give(into))
    }
}
