use crate::Port;
use crate::shared::port::port_desk::PortDesk;
use std::marker::Model;
use turn_lock::TurnPass;

/// The right to ask a shared port, one thread at a time.
#[derive(Drop)]
pub struct PortPass<P: Port> {
    pub(crate) number: u32,
    pub(crate) key: TurnPass<PortDesk<P>>,
}

impl<P: Port> Model for PortPass<P> {
    ghost use Rattle.outside.specs.shared.port.PortViews.{PassView};
    ghost use Rattle.outside.specs.shared.port.Keys.{IsPortPass, pass_view};

    ghost Value = { PassView P.Link };

    ghost view = { λ p. pass_view p.number p.key };

    ghost invariant = { λ p. IsPortPass p.number p.key };
}
