//! A server, which has a pass of everything that lanes share but the queue: it serves one link after the other.
ghost use Rattle.std.specs.Prelude.{◌≡◌, ◌∷◌, [], ℕ, List, OnOk};
ghost use Rattle.outside.specs.NewLink.{IsNewLink};
ghost use Rattle.outside.specs.shared.port.Asked.{IfLink, IsAnswer};
ghost use Rattle.link_lanes.specs.Accepted.{numbers_in};
ghost use Rattle.link_lanes.specs.Going.{HasServedOn};
ghost use Rattle.link_lanes.specs.Seen.{seen_by};
ghost use Rattle.link_lanes.specs.Serving.{IsServing};

use crate::books::served_links_are_booked;
use crate::hall::Hall;
use kbytes::NoMemory;
use outside::shared::port::{Accepting, PortPass};
use outside::shared::queue::Numbered;
use outside::{Clock, Port};
use session::{ClockPass, serve_session};
use shared_broker::Pass;
use std::marker::Model;
use std::sync::Wait;

/// The right to act on the broker, the clock and the port.
#[derive(Drop)]
pub struct Server<P: Port, C: Clock> {
    pub pass: Pass,
    pub seat: ClockPass<C>,
    pub key: PortPass<P>,
}

impl<P: Port, C: Clock> Model for Server<P, C> {
    ghost use Rattle.link_lanes.specs.Halls.{ServerView};

    ghost Value = { ServerView P.Link };

    ghost view = { λ s. record { pass = s.pass; seat = s.seat; key = s.key } };
}

impl<P: Port, C: Clock> Server<P, C>
where
    P::Link: Drop,
{
    /// Serves a link as one session, and hands it back to the port. If memory runs out the link may be dropped.
    pub fn serve(
        &mut self,
        rt: &impl Wait,
        hall: &Hall<P, C>,
        item: Numbered<P::Link>,
    ) -> Result<(), NoMemory>
        requires ready { (at : ℕ) × (put : List ℕ) × (taken : List ℕ)
            × IsServing (seen_by P.Link.taken P.Link.left P.Link.written P.Link.faults P.Link.is_shut) hall.now at (item.number ∷ []) put taken self.old }
        requires new { IsNewLink (P.Link.taken item.link) (P.Link.written item.link) (P.Link.faults item.link) (P.Link.is_shut item.link) }
        ensures served { OnOk result (HasServedOn (seen_by P.Link.taken P.Link.left P.Link.written P.Link.faults P.Link.is_shut) hall.now (item.number ∷ []) [] [] [] self.old self.new) }
    {
        // a law: it does nothing
        served_links_are_booked();
        let Numbered { number, mut link } = item;
        serve_session(
            rt,
            hall.alloc,
            &hall.broker,
            &mut self.pass,
            number,
            &mut link,
            &hall.clock,
            &mut self.seat,
        );
        if self.pass.is_begun() {
            return Err(NoMemory);
        }
        hall.port.retire(rt, &mut self.key, number, link)
    }

    /// Asks the port for its next link, which is then in hand.
    pub fn accept(&mut self, rt: &impl Wait, hall: &Hall<P, C>) -> Accepting<P::Link>
        requires ready { (at : ℕ) × (put : List ℕ) × (taken : List ℕ)
            × IsServing (seen_by P.Link.taken P.Link.left P.Link.written P.Link.faults P.Link.is_shut) hall.now at [] put taken self.old }
        ensures served { HasServedOn (seen_by P.Link.taken P.Link.left P.Link.written P.Link.faults P.Link.is_shut) hall.now [] (numbers_in result) [] [] self.old self.new }
        ensures answer { IsAnswer hall.now.port.terms.most result self.new.key.seen }
        ensures link { IfLink result (λ link. IsNewLink (P.Link.taken link) (P.Link.written link) (P.Link.faults link) (P.Link.is_shut link)) }
    {
        hall.port.accept(rt, &mut self.key)
    }
}
