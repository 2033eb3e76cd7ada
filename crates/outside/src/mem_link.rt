ghost use Rattle.std.specs.Prelude.{◌≡◌, ◌↔◌, ◌-◌, ◌++◌, ◌<◌, [], false, true, Some, IsTrue, IsErr, IfOk, OnErr, min, length, take, drop};
ghost use Rattle.std.specs.Io.{ReadsAtMost, WritesAtMost};
ghost use Rattle.std.specs.Io.KnownBytes.{ReadConsumes, WriteAppends};
ghost use Rattle.outside.specs.Alike.{ShowsAlike};
ghost use Rattle.outside.specs.Causes.{HasCause};
ghost use Rattle.outside.specs.Plan.{planned, is_due, called, faulted};
ghost use Rattle.outside.specs.Store.{IsRefused};
ghost use Rattle.outside.specs.Told.{ReadAppends};
ghost use Rattle.outside.specs.Wire.{store_of};

use crate::ends::Ends;
use crate::failed::Failed;
use crate::link::Link;
use crate::shelf::Shelf;
use kbytes::{Bytes, List, NoMemory};
use std::alloc::Global;
use std::marker::Model;

/// A link in memory, for tests. It tells the bytes that were taken, are left and were written.
#[derive(Drop)]
pub struct MemLink {
    pub(crate) ends: Ends,
    // where a port puts the links that were retired before this one
    pub(crate) place: Box<Shelf>,
}

impl Model for MemLink {
    ghost use Rattle.outside.specs.Wire.{Wire};

    ghost Value = { Wire };

    ghost view = { λ l. l.ends };
}

impl MemLink {
    /// A link from which these bytes come, with room for this many bytes. Those of its reads and writes fail whose numbers are in
    /// `fails`, counted from 0 over both. It takes all its memory here.
    pub fn new(
        alloc: Global,
        input: Bytes,
        room: u64,
        fails: List<u64>,
    ) -> Result<MemLink, NoMemory>
        ensures { IfOk result (λ link. link ≡ record { taken = []; left = input; written = []; room = room; plan = planned fails; is_shut = false }) }
    {
        Ok(MemLink {
            ends: Ends::new(alloc, input, room, fails)?,
            place: Box::new(alloc, Shelf::new())?,
        })
    }

    /// The bytes that were written.
    pub fn bytes(&self) -> &[u8]
        ensures { result.now ≡ self.now.written }
    {
        self.ends.bytes()
    }

    /// Whether it was shut.
    pub fn was_shut(&self) -> bool
        ensures { result ≡ self.now.is_shut }
    {
        self.ends.is_shut()
    }
}

impl Link for MemLink {
    ghost taken = { λ l. Some l.taken };

    ghost left = { λ l. Some l.left };

    ghost written = { λ l. Some l.written };

    ghost faults = { λ l. l.plan.faults };

    ghost is_shut = { λ l. l.is_shut };

    /// Fails exactly where the plan says so. Else it gives as many of the bytes left as fit.
    fn read(&mut self, into: &mut [u8]) -> Result<usize, Failed>
        ensures bound { ReadsAtMost result into.new }
        ensures bytes { ReadConsumes (Some self.old.left) (Some self.new.left) result into.new }
        ensures taken { ReadAppends (Some self.old.taken) (Some self.new.taken) result into.new }
        ensures taken_told { ShowsAlike (Some self.old.taken) (Some self.new.taken) }
        ensures left_told { ShowsAlike (Some self.old.left) (Some self.new.left) }
        ensures written { Some self.new.written ≡ Some self.old.written }
        ensures shut { self.new.is_shut ≡ self.old.is_shut }
        ensures cause { HasCause self.old.plan.faults self.new.plan.faults result }
        ensures fails { IsErr result ↔ IsTrue (is_due self.old.plan) }
        ensures count { IfOk result (λ n. n ≡ min (length self.old.left) (length into.old)) }
        ensures given { IfOk result (λ n. into.new ≡ take n self.old.left ++ drop n into.old) }
        ensures read { IfOk result (λ n. self.new ≡ record self.old { taken = self.old.taken ++ take n self.old.left; left = drop n self.old.left; plan = called self.old.plan }) }
        ensures untouched { OnErr result (into.new ≡ into.old) }
        ensures failed { OnErr result (self.new ≡ record self.old { plan = faulted self.old.plan }) }
    {
        self.ends.read(into)
    }

    /// Fails exactly where the plan says so, or where the part isn't empty and no room is left. Else it takes as many bytes of the part
    /// as there is room for.
    fn write(&mut self, part: &[u8]) -> Result<usize, Failed>
        ensures bound { WritesAtMost result part.now }
        ensures some { IfOk result (λ n. 0 < length part.now → 0 < n) }
        ensures bytes { WriteAppends (Some self.old.written) (Some self.new.written) result part.now }
        ensures written_told { ShowsAlike (Some self.old.written) (Some self.new.written) }
        ensures taken { Some self.new.taken ≡ Some self.old.taken }
        ensures left { Some self.new.left ≡ Some self.old.left }
        ensures shut { self.new.is_shut ≡ self.old.is_shut }
        ensures cause { HasCause self.old.plan.faults self.new.plan.faults result }
        ensures fails { IsErr result ↔ IsRefused (store_of self.old) part.now }
        ensures count { IfOk result (λ n. n ≡ min (length part.now) (self.old.room - length self.old.written)) }
        ensures wrote { IfOk result (λ n. self.new ≡ record self.old { written = self.old.written ++ take n part.now; plan = called self.old.plan }) }
        ensures failed { OnErr result (self.new ≡ record self.old { plan = faulted self.old.plan }) }
    {
        self.ends.write(part)
    }

    /// Shuts it. It goes on to answer as before.
    fn shut(&mut self)
        ensures { self.new ≡ record self.old { is_shut = true } }
    {
        self.ends.shut();
    }
}
