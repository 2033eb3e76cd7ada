use kbytes::List;
use outside::shared::port::PortPass;
use outside::{Clock, Port};
use session::ClockPass;
use shared_broker::Pass;

/// What servers have, kind by kind, in their order.
#[derive(Drop)]
pub struct ServerParts<P: Port, C: Clock> {
    pub passes: List<Pass>,
    pub seats: List<ClockPass<C>>,
    pub keys: List<PortPass<P>>,
}
