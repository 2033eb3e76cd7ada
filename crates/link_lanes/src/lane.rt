//! A lane, to which `serve_links` gives a thread: it serves links until no more come.
ghost use Rattle.std.specs.Prelude.{◌≡◌, ◌≢◌, ◌∷◌, [], ℕ, List, None, false, IfNone, IfSome, IsPermutation};
ghost use Rattle.outside.specs.shared.queue.QueueViews.{IsPassOf, IsWhole};
ghost use Rattle.link_lanes.specs.declared.lane.LaneEnd.TheVariants.{NoMemory as OutOfMemory};
ghost use Rattle.link_lanes.specs.Going.{HasEnded, HasGone, HasGoneFrom, IsReady};
ghost use Rattle.link_lanes.specs.Seen.{seen_by};
ghost use Rattle.link_lanes.specs.Serving.{IsServing};
ghost use Rattle.outside.specs.NewLink.{IsNewLink};

use crate::hall::Hall;
use crate::server::Server;
use outside::shared::port::Accepting;
use outside::shared::queue::{Numbered, QueuePass};
use outside::{Clock, Port};
use std::marker::Model;
use std::sync::Wait;

/// Why a lane ended.
#[derive(Clone, Copy, PartialEq, Eq)]
pub enum LaneEnd {
    /// No more links come, or as many came as may.
    Over,
    /// The port failed.
    Failed,
    NoMemory,
}

/// A server with a pass of the queue.
#[derive(Drop)]
pub struct Lane<P: Port, C: Clock> {
    pub server: Server<P, C>,
    pub hand: QueuePass<P::Link>,
    pub is_stopped: bool,
}

impl<P: Port, C: Clock> Model for Lane<P, C> {
    ghost use Rattle.link_lanes.specs.Halls.{LaneView};

    ghost Value = { LaneView P.Link };

    ghost view = { λ l. record { server = l.server; hand = l.hand; is_stopped = l.is_stopped } };
}

impl<P: Port, C: Clock> Lane<P, C>
where
    P::Link: Drop,
{
    // Serves a link that it has in hand.
    fn serve(
        &mut self,
        rt: &impl Wait,
        hall: &Hall<P, C>,
        item: Numbered<P::Link>,
    ) -> Option<LaneEnd>
        requires ready { (at : ℕ) × (put : List ℕ) × (taken : List ℕ)
            × IsServing (seen_by P.Link.taken P.Link.left P.Link.written P.Link.faults P.Link.is_shut) hall.now at (item.number ∷ []) put taken self.old.server }
        requires new { IsNewLink (P.Link.taken item.link) (P.Link.written item.link) (P.Link.faults item.link) (P.Link.is_shut item.link) }
        ensures gone { IfNone result (HasGoneFrom (seen_by P.Link.taken P.Link.left P.Link.written P.Link.faults P.Link.is_shut) hall.now (item.number ∷ []) self.old self.new) }
        ensures end { IfSome result (λ end. end ≡ OutOfMemory) }
        ensures hand { self.new.hand ≡ self.old.hand }
    {
        let Ok(()) = self.server.serve(rt, hall, item) else {
            return Some(LaneEnd::NoMemory);
        };
        None
    }

    // Puts a link that it has in hand into the queue, or serves it where the queue is full.
    fn pass_on(
        &mut self,
        rt: &impl Wait,
        hall: &Hall<P, C>,
        item: Numbered<P::Link>,
    ) -> Option<LaneEnd>
        requires ready { (at : ℕ) × (put : List ℕ) × (taken : List ℕ)
            × IsServing (seen_by P.Link.taken P.Link.left P.Link.written P.Link.faults P.Link.is_shut) hall.now at (item.number ∷ []) put taken self.old.server }
        requires new { IsNewLink (P.Link.taken item.link) (P.Link.written item.link) (P.Link.faults item.link) (P.Link.is_shut item.link) }
        requires queue { IsPassOf hall.now.queue self.old.hand }
        ensures gone { IfNone result (HasGoneFrom (seen_by P.Link.taken P.Link.left P.Link.written P.Link.faults P.Link.is_shut) hall.now (item.number ∷ []) self.old self.new) }
        ensures end { IfSome result (λ end. end ≡ OutOfMemory) }
    {
        match hall.queue.push(rt, &mut self.hand, item) {
            Ok(()) => None,
            Err(item) => self.serve(rt, hall, item),
        }
    }

    // Takes the next link from the port, and puts it into the queue.
    fn accept(&mut self, rt: &impl Wait, hall: &Hall<P, C>) -> Option<LaneEnd>
        requires ready { IsReady (seen_by P.Link.taken P.Link.left P.Link.written P.Link.faults P.Link.is_shut) hall.now self.old }
        ensures gone { IfNone result (HasGone (seen_by P.Link.taken P.Link.left P.Link.written P.Link.faults P.Link.is_shut) hall.now self.old self.new) }
        ensures over { IfSome result (λ end. end ≢ OutOfMemory
            → HasGone (seen_by P.Link.taken P.Link.left P.Link.written P.Link.faults P.Link.is_shut) hall.now self.old self.new × (self.new.hand ≡ self.old.hand)) }
        ensures end { IfSome result (λ end. HasEnded hall.now.port.terms.most end self.new.server.key.seen) }
    {
        match self.server.accept(rt, hall) {
            Accepting::Link { number, link } => self.pass_on(rt, hall, Numbered { number, link }),
            Accepting::Full => Some(LaneEnd::Over),
            Accepting::Ended => Some(LaneEnd::Over),
            Accepting::Faulted => Some(LaneEnd::Failed),
            Accepting::NoMemory => Some(LaneEnd::NoMemory),
        }
    }

    // Serves the next link of the queue, or where there is none takes one from the port.
    fn step(&mut self, rt: &impl Wait, hall: &Hall<P, C>) -> Option<LaneEnd>
        requires ready { IsReady (seen_by P.Link.taken P.Link.left P.Link.written P.Link.faults P.Link.is_shut) hall.now self.old }
        ensures gone { IfNone result (HasGone (seen_by P.Link.taken P.Link.left P.Link.written P.Link.faults P.Link.is_shut) hall.now self.old self.new) }
        ensures over { IfSome result (λ end. end ≢ OutOfMemory
            → HasGone (seen_by P.Link.taken P.Link.left P.Link.written P.Link.faults P.Link.is_shut) hall.now self.old self.new
            × (IsWhole self.new.hand → IsPermutation self.new.hand.put self.new.hand.taken)) }
        ensures end { IfSome result (λ end. HasEnded hall.now.port.terms.most end self.new.server.key.seen) }
    {
        match hall.queue.pop(rt, &mut self.hand) {
            Some(item) => self.serve(rt, hall, item),
            None => self.accept(rt, hall),
        }
    }

    /// Serves links until no more come, or the port or memory fails. What was put into the queue was then taken from it, as far as its pass knows.
    pub fn run(&mut self, rt: &impl Wait, hall: &Hall<P, C>) -> LaneEnd
        requires ready { IsReady (seen_by P.Link.taken P.Link.left P.Link.written P.Link.faults P.Link.is_shut) hall.now self.old }
        ensures gone { result ≢ OutOfMemory → HasGone (seen_by P.Link.taken P.Link.left P.Link.written P.Link.faults P.Link.is_shut) hall.now self.old self.new }
        ensures empty { result ≢ OutOfMemory → IsWhole self.new.hand → IsPermutation self.new.hand.put self.new.hand.taken }
        ensures end { HasEnded hall.now.port.terms.most result self.new.server.key.seen }
    {
        for _ in rt.forever() {
            if let Some(end) = self.step(rt, hall) {
                return end;
            }
        }
        unreachable!()
    }

    /// Does so, and keeps whether memory ran out.
    pub fn work(&mut self, rt: &impl Wait, hall: &Hall<P, C>)
        requires ready { IsReady (seen_by P.Link.taken P.Link.left P.Link.written P.Link.faults P.Link.is_shut) hall.now self.old }
        requires running { self.old.is_stopped ≡ false }
        ensures gone { self.new.is_stopped ≡ false → HasGone (seen_by P.Link.taken P.Link.left P.Link.written P.Link.faults P.Link.is_shut) hall.now self.old self.new }
    {
        self.is_stopped = matches!(self.run(rt, hall), LaneEnd::NoMemory);
    }
}
