ghost use Rattle.std.specs.Prelude.{◌≡◌, ◌↔◌, ◌⊎◌, ◌+◌, ◌++◌, [], ◌∷◌, All, IfOk, IsErr, IsTrue, MatchOption, Some};
ghost use Rattle.outside.specs.Causes.{HasCause};
ghost use Rattle.outside.specs.NewLink.{IsNewLink};
ghost use Rattle.outside.specs.Plan.{is_due, planned};
ghost use Rattle.outside.specs.Told.{Gains};
ghost use Rattle.outside.specs.Wire.{IsNewWire};

use crate::dial::Dial;
use kbytes::{List, NoMemory};
use outside::{Failed, MemLink, MemPort, Port};
use std::alloc::Global;
use std::marker::Model;

/// A dial in memory, for tests. It gives the links that it was made of, and tells those that were retired.
#[derive(Drop)]
pub struct MemDial {
    // the links, and what becomes of them, as of a port
    peers: MemPort,
    dialled: u16,
    // how often no link was left
    missed: u64,
}

impl Model for MemDial {
    ghost use Rattle.follower.specs.Dialling.{Switchboard};

    ghost Value = { Switchboard };

    ghost view = { λ d. record { links = d.peers.links; plan = d.peers.plan; missed = d.missed; dialled = d.dialled; retired = d.peers.retired } };
}

impl MemDial {
    /// A dial that gives these links in order. Those of its calls of `dial` fail whose numbers are in `fails`, counted from 0, and those for
    /// which no link is left.
    pub fn new(alloc: Global, links: List<MemLink>, fails: List<u64>) -> Result<MemDial, NoMemory>
        requires { All IsNewWire links }
        ensures { IfOk result (λ dial. dial ≡ record { links = links; plan = planned fails; missed = 0; dialled = 0; retired = [] }) }
    {
        Ok(MemDial {
            peers: MemPort::new(alloc, links, fails)?,
            dialled: 0,
            missed: 0,
        })
    }

    /// Takes out the link that was retired last, with its port: so a test reads what was written to it.
    pub fn pop_retired(&mut self) -> Option<(u64, MemLink)>
        ensures last { MatchOption result (self.old.retired ≡ []) (λ last. self.old.retired ≡ self.new.retired ++ last ∷ []) }
        ensures rest { self.new ≡ record self.old { retired = self.new.retired } }
    {
        self.peers.pop_retired()
    }
}

impl Dial for MemDial {
    type Link = MemLink;

    ghost faults = { λ d. d.plan.faults + d.missed };

    ghost dialled = { λ d. d.dialled };

    ghost retired = { λ d. Some d.retired };

    /// Fails exactly where the plan says so, or no link is left. Else it gives the next of its links.
    fn dial(&mut self, port: u16) -> Result<MemLink, Failed>
        ensures link { IfOk result (λ link. IsNewLink (Some link.taken) (Some link.written) link.plan.faults link.is_shut) }
        ensures dialled { self.new.dialled ≡ port }
        ensures retired { Some self.new.retired ≡ Some self.old.retired }
        ensures cause { HasCause (self.old.plan.faults + self.old.missed) (self.new.plan.faults + self.new.missed) result }
        ensures fails { IsErr result ↔ (IsTrue (is_due self.old.plan) ⊎ (self.old.links ≡ [])) }
        ensures next { IfOk result (λ link. self.old.links ≡ link ∷ self.new.links) }
    {
        self.dialled = port;
        match self.peers.accept() {
            Ok(Some(link)) => Ok(link),
            Ok(None) => {
                self.missed = self.missed.saturating_add(1);
                Err(Failed)
            }
            Err(failed) => Err(failed),
        }
    }

    /// Takes the link back. It takes no memory.
    fn retire(&mut self, link: MemLink)
        ensures retired { Gains (Some self.old.retired) (Some self.new.retired) (self.old.dialled, link) }
        ensures dialled { self.new.dialled ≡ self.old.dialled }
        ensures faults { self.new.plan.faults + self.new.missed ≡ self.old.plan.faults + self.old.missed }
    {
        self.peers.retire(u64::from(self.dialled), link);
    }
}
