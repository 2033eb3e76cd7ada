//! A link in memory without the place that it takes at a port: what `MemLink` hands each of its calls on to.
ghost use Rattle.std.specs.Prelude.{◌≡◌, ◌↔◌, ◌-◌, ◌++◌, [], false, true, IsTrue, IsErr, IfOk, OnErr, OnOk, min, length, take, drop};
ghost use Rattle.outside.specs.Causes.{HasCause};
ghost use Rattle.outside.specs.Plan.{planned, is_due, called, faulted};
ghost use Rattle.outside.specs.Store.{IsRefused};
ghost use Rattle.outside.specs.Wire.{store_of};

use crate::failed::Failed;
use crate::intake::Intake;
use crate::outlet::Outlet;
use crate::plan::FaultPlan;
use kbytes::{Bytes, List, NoMemory};
use std::alloc::Global;
use std::marker::Model;

/// Both directions of a link in memory, and the plan of its faults.
#[derive(Drop)]
pub(crate) struct Ends {
    input: Intake,
    output: Outlet,
    plan: FaultPlan,
    is_shut: bool,
}

impl Model for Ends {
    ghost use Rattle.outside.specs.Wire.{Wire};

    ghost Value = { Wire };

    ghost view = { λ e. record {
      taken = e.input.taken;
      left = e.input.left;
      written = e.output.written;
      room = e.output.room;
      plan = e.plan;
      is_shut = e.is_shut;
    } };
}

impl Ends {
    pub(crate) fn new(
        alloc: Global,
        input: Bytes,
        room: u64,
        fails: List<u64>,
    ) -> Result<Ends, NoMemory>
        ensures { IfOk result (λ ends. ends ≡ record { taken = []; left = input; written = []; room = room; plan = planned fails; is_shut = false }) }
    {
        Ok(Ends {
            input: Intake::new(input),
            output: Outlet::new(alloc, room)?,
            plan: FaultPlan::new(fails),
            is_shut: false,
        })
    }

    pub(crate) fn bytes(&self) -> &[u8]
        ensures { result.now ≡ self.now.written }
    {
        self.output.bytes()
    }

    pub(crate) fn is_shut(&self) -> bool
        ensures { result ≡ self.now.is_shut }
    {
        self.is_shut
    }

    pub(crate) fn read(&mut self, into: &mut [u8]) -> Result<usize, Failed>
        ensures cause { HasCause self.old.plan.faults self.new.plan.faults result }
        ensures fails { IsErr result ↔ IsTrue (is_due self.old.plan) }
        ensures count { IfOk result (λ n. n ≡ min (length self.old.left) (length into.old)) }
        ensures given { IfOk result (λ n. into.new ≡ take n self.old.left ++ drop n into.old) }
        ensures read { IfOk result (λ n. self.new ≡ record self.old { taken = self.old.taken ++ take n self.old.left; left = drop n self.old.left; plan = called self.old.plan }) }
        ensures untouched { OnErr result (into.new ≡ into.old) }
        ensures failed { OnErr result (self.new ≡ record self.old { plan = faulted self.old.plan }) }
    {
        if self.plan.is_due() {
            return Err(self.plan.fail());
        }
        Ok(self.input.give(into))
    }

    pub(crate) fn write(&mut self, part: &[u8]) -> Result<usize, Failed>
        ensures cause { HasCause self.old.plan.faults self.new.plan.faults result }
        ensures fails { IsErr result ↔ IsRefused (store_of self.old) part.now }
        ensures count { IfOk result (λ n. n ≡ min (length part.now) (self.old.room - length self.old.written)) }
        ensures written { IfOk result (λ n. self.new ≡ record self.old { written = self.old.written ++ take n part.now; plan = called self.old.plan }) }
        ensures failed { OnErr result (self.new ≡ record self.old { plan = faulted self.old.plan }) }
    {
        let is_full = !part.is_empty() && self.output.is_full();
        if self.plan.is_due() || is_full {
            return Err(self.plan.fail());
        }
        Ok(self.output.keep(part))
    }

    pub(crate) fn shut(&mut self)
        ensures { self.new ≡ record self.old { is_shut = true } }
    {
        self.is_shut = true;
    }
}
