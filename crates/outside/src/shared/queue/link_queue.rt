ghost use Rattle.std.specs.Prelude.{◌≡◌, ◌<◌, ◌+◌, ◌++◌, List, All, IsPermutation, IfErr, IfNone, IfOk, IfSome, OnErr, OnOk, length};
ghost use Rattle.outside.specs.declared.shared.queue.numbered.Numbered.{Numbered};
ghost use Rattle.outside.specs.shared.queue.Passes.{first_pass, joined, lesser, part_pass, put_by, taken_by};
ghost use Rattle.outside.specs.shared.queue.QueueViews.{IsPassOf, IsWhole};

use crate::shared::queue::condition::{AnyLink, Condition};
use crate::shared::queue::hand::Hand;
use crate::shared::queue::moves::{Cut, Fair, Puts, Takes, Whole};
use crate::shared::queue::numbered::Numbered;
use crate::shared::queue::queue_pass::QueuePass;
use crossbeam_queue::RuledArrayQueue;
use kbytes::NoMemory;
use std::alloc::Global;
use std::marker::Model;
use std::sync::Wait;

/// A bounded queue of numbered links that threads share, each with a pass of its own. All that it holds meets the condition.
#[derive(Drop)]
pub struct LinkQueue<L, N: Condition<L> = AnyLink> {
    ring: RuledArrayQueue<Numbered<L>, Hand<L>, Fair<N>>,
}

impl<L, N: Condition<L>> Model for LinkQueue<L, N> {
    ghost use Rattle.outside.specs.shared.queue.QueueViews.{QueueView};
    ghost use Rattle.outside.specs.shared.queue.Hands.{queue_view};

    ghost Value = { QueueView };

    ghost view = { λ q. queue_view q.ring };
}

impl<L, N: Condition<L>> LinkQueue<L, N> {
    /// An empty queue for so many links, and its first pass, which has every part. It is refused where no memory is left.
    pub fn make(alloc: Global, capacity: usize) -> Result<(LinkQueue<L, N>, QueuePass<L>), NoMemory>
        requires room { 0 < capacity }
        ensures capacity { IfOk result (λ made. made.0.capacity ≡ capacity) }
        ensures pass { IfOk result (λ made. made.1 ≡ first_pass made.0) }
    {
        let (ring, seat) = RuledArrayQueue::ruled(alloc, capacity)?;
        Ok((LinkQueue { ring }, QueuePass { seat }))
    }

    /// A pass for one more thread, which has one part and has put and taken nothing. The part is the given pass's no longer.
    pub fn another(&self, pass: &mut QueuePass<L>) -> QueuePass<L>
        requires queue { IsPassOf self.now pass.old }
        requires parts { 1 < pass.old.parts }
        ensures lesser { pass.new ≡ lesser pass.old }
        ensures part { result ≡ part_pass self.now }
    {
        let seat = self.ring.another::<Cut>(&mut pass.seat);
        QueuePass { seat }
    }

    /// Puts a link at the back. The very link comes back, and nothing changed, only if the queue was full at one moment of the call. It may
    /// wait for a thread that is in the midst of a push or a pop.
    pub fn push<R: Wait>(
        &self,
        rt: &R,
        pass: &mut QueuePass<L>,
        item: Numbered<L>,
    ) -> Result<(), Numbered<L>>
        requires queue { IsPassOf self.now pass.old }
        requires fits { N.fits item }
        ensures put { OnOk result (pass.new ≡ put_by pass.old item) }
        ensures back { IfErr result (λ same. same ≡ item) }
        ensures kept { OnErr result (pass.new ≡ pass.old) }
        ensures full { OnErr result (IsWhole pass.old → length pass.old.put ≡ length pass.old.taken + self.now.capacity) }
    {
        self.ring.push_as::<Puts, R>(rt, &mut pass.seat, item)
    }

    /// Takes the link at the front. `None`, and nothing changed, only if the queue was empty at one moment of the call: a pass that has
    /// every part then took all that was put. It may wait for a thread that is in the midst of a push or a pop.
    pub fn pop<R: Wait>(&self, rt: &R, pass: &mut QueuePass<L>) -> Option<Numbered<L>>
        requires queue { IsPassOf self.now pass.old }
        ensures taken { IfSome result (λ item. pass.new ≡ taken_by pass.old item) }
        ensures fits { IfSome result (λ item. N.fits item) }
        ensures kept { IfNone result (pass.new ≡ pass.old) }
        ensures empty { IfNone result (IsWhole pass.old → IsPermutation pass.old.put pass.old.taken) }
    {
        self.ring.pop_as::<Takes<N>, R>(rt, &mut pass.seat)
    }

    /// Joins the other pass to this one: its parts, what it put and what it took.
    pub fn absorb(&self, pass: &mut QueuePass<L>, other: QueuePass<L>)
        requires queue { IsPassOf self.now pass.old × IsPassOf self.now other }
        ensures { pass.new ≡ joined pass.old other }
    {
        self.ring.absorb::<Cut>(&mut pass.seat, other.into_seat());
    }

    /// Tells a pass that has every part what the queue holds: what was put and not taken.
    pub fn settle(&self, pass: &mut QueuePass<L>)
        requires queue { IsPassOf self.now pass.old }
        requires whole { IsWhole pass.old }
        ensures kept { pass.new ≡ pass.old }
        ensures held { (held : List (Numbered L)) × IsPermutation pass.old.put (pass.old.taken ++ held) × All N.fits held }
    {
        self.ring.learn_as::<Whole<N>>(&mut pass.seat);
    }
}
