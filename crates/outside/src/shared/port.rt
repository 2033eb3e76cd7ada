//! One port for several threads, which reports what happened at it.
//!
//! A `SharedPort` has a port behind a turn lock, with the history of what happened there: how it was opened, which links it gave under which
//! numbers, that it ended or failed, and which links were retired. Each entry names the pass that made it. The port comes back at the close,
//! and what it then says of itself, how many links it gave and took back, whether it ended and failed, is what the history says.

mod accepting;
mod crossing;
mod kept;
mod making;
mod opening;
mod port_desk;
mod port_entry;
mod port_pass;
mod shared_port;

pub use accepting::Accepting;
pub use opening::Opening;
pub use port_desk::PortDesk;
pub use port_entry::PortEntry;
pub use port_pass::PortPass;
pub use shared_port::SharedPort;
