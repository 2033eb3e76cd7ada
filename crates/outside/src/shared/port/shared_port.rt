ghost use Rattle.std.specs.Prelude.{◌≡◌, ◌≤◌, All, IfOk, OnErr, OnOk, [], length};
ghost use Rattle.outside.specs.NewLink.{IsNewLink};
ghost use Rattle.outside.specs.shared.port.Asked.{HasEntered, HasHandedBack, IfLink, IsAnswer, accept_entries, open_entries};
ghost use Rattle.outside.specs.shared.port.Closed.{IsClosed};
ghost use Rattle.outside.specs.shared.port.Fresh.{fresh_passes};
ghost use Rattle.outside.specs.shared.port.History.{IsNewPort};
ghost use Rattle.outside.specs.shared.port.PortViews.{IsPassOf};

use crate::Port;
use crate::shared::port::accepting::Accepting;
use crate::shared::port::making::{keys_of, port_passes};
use crate::shared::port::opening::Opening;
use crate::shared::port::port_desk::PortDesk;
use crate::shared::port::port_pass::PortPass;
use kbytes::{List, NoMemory};
use std::alloc::Global;
use std::marker::Model;
use std::sync::Wait;
use turn_lock::TurnLock;

/// A port that threads share, each with a pass of its own.
#[derive(Drop)]
pub struct SharedPort<P: Port> {
    alloc: Global,
    lock: TurnLock<PortDesk<P>>,
}

impl<P: Port> Model for SharedPort<P> {
    ghost use Rattle.outside.specs.shared.port.Keys.{port_view};
    ghost use Rattle.outside.specs.shared.port.PortViews.{PortView};

    ghost Value = { PortView };

    ghost view = { λ s. port_view s.lock };
}

impl<P: Port> SharedPort<P> {
    /// Shares a new port among this many passes, which come in the order of their numbers. It will be asked for `most` links at most. It is
    /// refused where no memory is left, and the port is dropped.
    pub fn make(
        alloc: Global,
        port: P,
        most: u64,
        passes: u32,
    ) -> Result<(SharedPort<P>, List<PortPass<P>>), NoMemory>
    where
        P: Drop,
        requires new { IsNewPort (record { faults = P.faults port; opened_with = P.opened_with port; given = P.given port; is_ended = P.is_ended port; retired_count = P.retired_count port; retired = P.retired port }) }
        requires some { 1 ≤ passes }
        ensures terms { IfOk result (λ made. made.0.terms ≡ record { before = P.faults port; most = most }) }
        ensures size { IfOk result (λ made. made.0.passes ≡ passes) }
        ensures passes { IfOk result (λ made. made.1 ≡ fresh_passes made.0.id made.0.terms passes) }
    {
        let desk = PortDesk::new(alloc, port, most);
        let (lock, keys) = TurnLock::make(alloc, desk, passes)?;
        let passes = port_passes(alloc, keys)?;
        Ok((SharedPort { alloc, lock }, passes))
    }

    /// Opens the port under a number, and enters that or its fault. It waits for its turn.
    pub fn open(&self, rt: &impl Wait, pass: &mut PortPass<P>, number: u16) -> Opening
        requires pass { IsPassOf self.now pass.old }
        ensures entered { HasEntered (λ found. open_entries result pass.old.number number) pass.old pass.new }
    {
        let mut turn = self.lock.turn(rt, &mut pass.key);
        let answer = turn.value_mut().open(pass.number, number);
        self.lock.end(&mut pass.key, turn);
        answer
    }

    /// Asks the port for its next link, unless as many came as may, or it has ended or failed before. It waits for its turn, and every other
    /// pass waits while the port does.
    pub fn accept(&self, rt: &impl Wait, pass: &mut PortPass<P>) -> Accepting<P::Link>
        requires pass { IsPassOf self.now pass.old }
        ensures entered { HasEntered (λ found. accept_entries result pass.old.number found) pass.old pass.new }
        ensures answer { IsAnswer self.now.terms.most result pass.new.seen }
        ensures link { IfLink result (λ link. IsNewLink (P.Link.taken link) (P.Link.written link) (P.Link.faults link) (P.Link.is_shut link)) }
    {
        let mut turn = self.lock.turn(rt, &mut pass.key);
        let answer = turn.value_mut().accept(pass.number);
        self.lock.end(&mut pass.key, turn);
        answer
    }

    /// Hands a link back to the port under its number. It waits for its turn. If memory runs out the link is dropped, and nothing is entered.
    pub fn retire(
        &self,
        rt: &impl Wait,
        pass: &mut PortPass<P>,
        number: u64,
        link: P::Link,
    ) -> Result<(), NoMemory>
    where
        P::Link: Drop,
        requires pass { IsPassOf self.now pass.old }
        ensures retired { OnOk result (HasHandedBack number link pass.old pass.new) }
        ensures refused { OnErr result (HasEntered (λ found. []) pass.old pass.new) }
    {
        let mut turn = self.lock.turn(rt, &mut pass.key);
        let answer = turn.value_mut().retire(pass.number, number, link);
        self.lock.end(&mut pass.key, turn);
        answer
    }

    /// Takes all passes back, in any order, and gives the port out. Its history begins with what each pass has seen, and has each pass's own
    /// entries once, in its order, and no others; and the port is as the history says. If memory runs out nothing is given out.
    pub fn close(self, passes: List<PortPass<P>>) -> Result<P, NoMemory>
    where
        P: Drop,
        requires all { length passes ≡ self.passes }
        requires each { All (λ pass. IsPassOf self pass) passes }
        ensures closed { IfOk result (λ port. IsClosed self
            (record { faults = P.faults port; opened_with = P.opened_with port; given = P.given port; is_ended = P.is_ended port; retired_count = P.retired_count port; retired = P.retired port })
            passes) }
    {
        let keys = keys_of(self.alloc, passes)?;
        Ok(self.lock.close(keys).into_port())
    }
}
