use crate::new_link::NewLink;
use outside::shared::port::SharedPort;
use outside::shared::queue::LinkQueue;
use outside::{Clock, Port};
use session::Shared;
use shared_broker::Broker;
use std::alloc::Global;
use std::marker::Model;

/// What all lanes share.
#[derive(Drop)]
pub struct Hall<P: Port, C: Clock> {
    pub alloc: Global,
    pub broker: Broker,
    pub clock: Shared<C>,
    pub port: SharedPort<P>,
    pub queue: LinkQueue<P::Link, NewLink>,
}

impl<P: Port, C: Clock> Model for Hall<P, C> {
    ghost use Rattle.link_lanes.specs.Halls.{HallView};

    ghost Value = { HallView };

    ghost view = { λ h. record { broker = h.broker; clock = h.clock; port = h.port; queue = h.queue } };
}
