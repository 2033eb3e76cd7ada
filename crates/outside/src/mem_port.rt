ghost use Rattle.std.specs.Prelude.{◌≡◌, ◌↔◌, ◌++◌, [], ◌∷◌, false, true, Some, None, IsTrue, IsErr, IfOk, IfSome, OnErr, OnOk, MatchOption, All};
ghost use Rattle.outside.specs.Accepting.{Accepts};
ghost use Rattle.outside.specs.Causes.{HasCause};
ghost use Rattle.outside.specs.Count.{one_more};
ghost use Rattle.outside.specs.NewLink.{IsNewLink};
ghost use Rattle.outside.specs.Plan.{planned, is_due, called, faulted};
ghost use Rattle.outside.specs.Told.{Gains};
ghost use Rattle.outside.specs.Wire.{IsNewWire};

use crate::failed::Failed;
use crate::mem_link::MemLink;
use crate::plan::FaultPlan;
use crate::port::Port;
use crate::shelf::Shelf;
use kbytes::{List, NoMemory};
use std::alloc::Global;
use std::marker::Model;

/// A port in memory, for tests. It gives the links that it was made of, and tells those that were retired.
#[derive(Drop)]
pub struct MemPort {
    // the next one last
    waiting: List<MemLink>,
    plan: FaultPlan,
    number: Option<u16>,
    given: u64,
    is_ended: bool,
    retired_count: u64,
    retired: Shelf,
}

impl Model for MemPort {
    ghost use Rattle.std.specs.Prelude.{◌≡◌, true, [], All, reverse};
    ghost use Rattle.outside.specs.Quay.{Quay};
    ghost use Rattle.outside.specs.Wire.{IsNewWire};

    ghost Value = { Quay };

    ghost view = { λ p. record {
      links = reverse p.waiting;
      plan = p.plan;
      opened_with = p.number;
      given = p.given;
      is_ended = p.is_ended;
      retired_count = p.retired_count;
      retired = p.retired;
    } };

    ghost invariant = { λ p. All IsNewWire p.waiting × (p.is_ended ≡ true → p.waiting ≡ []) };
}

impl MemPort {
    /// A port that gives these links in order. Those of its calls of `open` and `accept` fail whose numbers are in `fails`, counted from 0
    /// over both.
    pub fn new(
        alloc: Global,
        mut links: List<MemLink>,
        fails: List<u64>,
    ) -> Result<MemPort, NoMemory>
        requires { All IsNewWire links }
        ensures { IfOk result (λ port. port ≡ record { links = links; plan = planned fails; opened_with = None; given = 0; is_ended = false; retired_count = 0; retired = [] }) }
    {
        let mut waiting = List::new(alloc);
        while let Some(link) = links.pop() {
            waiting.push(link)?;
        }
        Ok(MemPort {
            waiting,
            plan: FaultPlan::new(fails),
            number: None,
            given: 0,
            is_ended: false,
            retired_count: 0,
            retired: Shelf::new(),
        })
    }

    /// Takes out the link that was retired last, with its number: so a test reads what was written to it. The count of the links that
    /// were retired stays.
    pub fn pop_retired(&mut self) -> Option<(u64, MemLink)>
        ensures last { MatchOption result (self.old.retired ≡ []) (λ last. self.old.retired ≡ self.new.retired ++ last ∷ []) }
        ensures rest { self.new ≡ record self.old { retired = self.new.retired } }
    {
        let (number, ends, place) = self.retired.pop()?;
        Some((number, MemLink { ends, place }))
    }
}

impl Port for MemPort {
    type Link = MemLink;

    ghost faults = { λ p. p.plan.faults };

    ghost opened_with = { λ p. p.opened_with };

    ghost given = { λ p. p.given };

    ghost is_ended = { λ p. p.is_ended };

    ghost retired_count = { λ p. p.retired_count };

    ghost retired = { λ p. Some p.retired };

    /// Fails exactly where the plan says so.
    fn open(&mut self, number: u16) -> Result<(), Failed>
        ensures opened { OnOk result (self.new.opened_with ≡ Some number) }
        ensures failed { OnErr result (self.new.opened_with ≡ self.old.opened_with) }
        ensures given { self.new.given ≡ self.old.given }
        ensures ended { self.new.is_ended ≡ self.old.is_ended }
        ensures count { self.new.retired_count ≡ self.old.retired_count }
        ensures retired { Some self.new.retired ≡ Some self.old.retired }
        ensures cause { HasCause self.old.plan.faults self.new.plan.faults result }
        ensures fails { IsErr result ↔ IsTrue (is_due self.old.plan) }
        ensures done { OnOk result (self.new ≡ record self.old { plan = called self.old.plan; opened_with = Some number }) }
        ensures undone { OnErr result (self.new ≡ record self.old { plan = faulted self.old.plan }) }
    {
        if self.plan.is_due() {
            return Err(self.plan.fail());
        }
        self.number = Some(number);
        Ok(())
    }

    /// Fails exactly where the plan says so. Else it gives the next of its links, and `None` exactly where it has none.
    fn accept(&mut self) -> Result<Option<MemLink>, Failed>
        ensures accepts { Accepts self.old.given self.new.given self.old.is_ended self.new.is_ended result }
        ensures link { IfOk result (λ answer. IfSome answer (λ link. IsNewLink (Some link.taken) (Some link.written) link.plan.faults link.is_shut)) }
        ensures opened { self.new.opened_with ≡ self.old.opened_with }
        ensures count { self.new.retired_count ≡ self.old.retired_count }
        ensures retired { Some self.new.retired ≡ Some self.old.retired }
        ensures cause { HasCause self.old.plan.faults self.new.plan.faults result }
        ensures fails { IsErr result ↔ IsTrue (is_due self.old.plan) }
        ensures next { IfOk result (λ answer. MatchOption answer ((self.old.links ≡ []) × (self.new.links ≡ [])) (λ link. self.old.links ≡ link ∷ self.new.links)) }
        ensures called { OnOk result (self.new.plan ≡ called self.old.plan) }
        ensures undone { OnErr result (self.new ≡ record self.old { plan = faulted self.old.plan }) }
    {
        if self.plan.is_due() {
            return Err(self.plan.fail());
        }
        match self.waiting.pop() {
            Some(link) => {
                self.given = self.given.saturating_add(1);
                Ok(Some(link))
            }
            None => {
                self.is_ended = true;
                Ok(None)
            }
        }
    }

    /// Takes the link back. It takes no memory.
    fn retire(&mut self, number: u64, link: MemLink)
        ensures count { self.new.retired_count ≡ one_more self.old.retired_count }
        ensures retired { Gains (Some self.old.retired) (Some self.new.retired) (number, link) }
        ensures opened { self.new.opened_with ≡ self.old.opened_with }
        ensures given { self.new.given ≡ self.old.given }
        ensures ended { self.new.is_ended ≡ self.old.is_ended }
        ensures faults { self.new.plan.faults ≡ self.old.plan.faults }
        ensures done { self.new ≡ record self.old { retired_count = one_more self.old.retired_count; retired = self.old.retired ++ (number, link) ∷ [] } }
    {
        let MemLink { ends, place } = link;
        self.retired_count = self.retired_count.saturating_add(1);
        self.retired.put(number, ends, place);
    }
}
