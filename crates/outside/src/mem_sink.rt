ghost use Rattle.std.specs.Prelude.{◌≡◌, ◌↔◌, ◌-◌, ◌<◌, Some, [], IsErr, IfOk, OnOk, OnErr, min, length};
ghost use Rattle.std.specs.Io.{WritesAtMost};
ghost use Rattle.std.specs.Io.KnownBytes.{WriteAppends};
ghost use Rattle.outside.specs.Causes.{HasCause};
ghost use Rattle.outside.specs.Plan.{planned, called, faulted};
ghost use Rattle.outside.specs.Store.{IsRefused};

use crate::failed::Failed;
use crate::outlet::Outlet;
use crate::plan::FaultPlan;
use crate::sink::Sink;
use kbytes::{List, NoMemory};
use std::alloc::Global;
use std::marker::Model;

/// A sink in memory, for tests. It tells the bytes that were written.
#[derive(Drop)]
pub struct MemSink {
    output: Outlet,
    plan: FaultPlan,
}

impl Model for MemSink {
    ghost use Rattle.outside.specs.Store.{Store};

    ghost Value = { Store };

    ghost view = { λ s. record { written = s.output.written; room = s.output.room; plan = s.plan } };
}

impl MemSink {
    /// A sink with room for this many bytes, whose writes with the numbers in `fails`, counted from 0, fail. It takes the
    /// memory for its room here, and none when it is written.
    pub fn new(alloc: Global, room: u64, fails: List<u64>) -> Result<MemSink, NoMemory>
        ensures written { IfOk result (λ sink. sink.written ≡ []) }
        ensures room { IfOk result (λ sink. sink.room ≡ room) }
        ensures plan { IfOk result (λ sink. sink.plan ≡ planned fails) }
    {
        Ok(MemSink {
            output: Outlet::new(alloc, room)?,
            plan: FaultPlan::new(fails),
        })
    }

    /// The bytes that were written.
    pub fn bytes(&self) -> &[u8]
        ensures { result.now ≡ self.now.written }
    {
        self.output.bytes()
    }
}

impl Sink for MemSink {
    ghost written = { λ s. Some s.written };

    ghost faults = { λ s. s.plan.faults };

    /// Fails exactly where the plan says so, or where the part isn't empty and no room is left. Else it takes as many
    /// bytes of the part as there is room for.
    fn write(&mut self, part: &[u8]) -> Result<usize, Failed>
        ensures bound { WritesAtMost result part.now }
        ensures some { IfOk result (λ n. 0 < length part.now → 0 < n) }
        ensures bytes { WriteAppends (Some self.old.written) (Some self.new.written) result part.now }
        ensures cause { HasCause self.old.plan.faults self.new.plan.faults result }
        ensures fails { IsErr result ↔ IsRefused self.old part.now }
        ensures count { IfOk result (λ n. n ≡ min (length part.now) (self.old.room - length self.old.written)) }
        ensures room { self.new.room ≡ self.old.room }
        ensures called { OnOk result (self.new.plan ≡ called self.old.plan) }
        ensures faulted { OnErr result (self.new.plan ≡ faulted self.old.plan) }
    {
        let is_full = !part.is_empty() && self.output.is_full();
        if self.plan.is_due() || is_full {
            return Err(self.plan.fail());
        }
        Ok(self.output.keep(part))
    }
}
