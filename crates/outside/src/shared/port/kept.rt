//! What the turn lock knows of the desk: its history, and the terms on which the port is shared as the name.
use crate::Port;
use crate::shared::port::port_desk::PortDesk;
use crate::shared::port::port_entry::PortEntry;
use turn_lock::Kept;

impl<P: Port> Kept for PortDesk<P> {
    ghost use Rattle.outside.specs.shared.port.Desk.{entries_of, name_of};
    ghost use Rattle.outside.specs.shared.port.Entries.{entered_by};

    type Entry = PortEntry<P::Link>;

    ghost entries = { entries_of };

    ghost by = { entered_by };

    ghost name = { name_of };

    fn count(&self) -> u64 {
        self.len()
    }
}
